// A slice that a call may write.
use super::slices::{first_mut, rest};
use std::alloc::{AllocError, Global};

// Entries, of which a call gets only the first.
#[derive(Debug, Drop)]
pub struct Lent {
    entries: Vec<u16>,
    lent: usize,
    fill: u16,
}

impl Lent {
    // So many entries, each filled with this one.
    pub fn new(alloc: Global, fill: u16, room: usize) -> Result<Lent, AllocError> {
        Ok(Lent {
            entries: vec![in alloc; fill; room]?,
            lent: 0,
            fill,
        })
    }

    // Fresh entries, of which the next call gets n.
    pub fn begin(&mut self, n: usize) {
        self.entries.fill(self.fill);
        self.lent = n;
    }

    // How many entries the call gets.
    pub fn len(&self) -> usize {
        self.lent
    }

    // The call asks for more entries than there are.
    pub fn is_short(&self) -> bool {
        self.entries.len() < self.lent
    }

    // The entries that the call gets.
    pub fn part(&mut self) -> &mut [u16] {
        let n = self.lent;
        first_mut(&mut self.entries, n)
    }

    pub fn entries(&self) -> &[u16] {
        &self.entries
    }

    // No entry is changed behind the first n. With no way out before the end, many entries are compared at once.
    pub fn kept_behind(&self, n: usize) -> bool {
        let fill = self.fill;
        rest(&self.entries, n)
            .iter()
            .fold(true, |kept, x| kept & (*x == fill))
    }
}
