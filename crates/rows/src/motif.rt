// A motif with the tables that are worked out of it.
ghost use Rattle.std.specs.Prelude.{◌≤◌, length};
ghost use Rattle.rows.specs.Rows.{Tables};

// A motif with its tables.
#[derive(Clone, Copy)]
pub struct Motif<'a> {
    pub bases: &'a [u8],
    pub mates: &'a [u16],
    pub tables: &'a [u16],
    ghost small: { length bases.now ≤ 4096 },
    ghost made: { Tables bases.now mates.now tables.now },
}
