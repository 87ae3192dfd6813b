// The table's numbers of its sides, for constants; elsewhere `Side::number` tells them.
pub const MOTIF: u8 = 0;

pub const MOLECULE: u8 = 1;

pub const NEITHER: u8 = 2;
