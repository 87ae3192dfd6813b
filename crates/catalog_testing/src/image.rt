// The buffer of the lines: catalog, cache and, for batches, a bank of motif blocks, one behind the other.
use super::lines::Sizes;
use std::alloc::{AllocError, Global};
use testing::slices::{first, first_mut, rest, set, sum};
use testing::strands::Strand;

pub const BLOCK: usize = 512;

// Where the cache starts, and where the bank does.
const CACHE: usize = 262656;

const BANK: usize = 295936;

const CACHE_ROOM: usize = BANK - CACHE;

#[derive(Debug, Drop)]
pub struct Image {
    bytes: Vec<u8>,
}

// The catalog, and what is behind it.
fn split(bytes: &mut [u8]) -> (&mut [u8], &mut [u8]) {
    let n = CACHE.min(bytes.len());
    bytes.split_at_mut(n)
}

impl Image {
    // An empty image with so many blocks in its bank.
    pub fn new(alloc: Global, bank: u8) -> Result<Image, AllocError> {
        let n = BANK + BLOCK * usize::from(bank);
        Ok(Image {
            bytes: vec![in alloc; 0; n]?,
        })
    }

    pub fn clear(&mut self) {
        self.bytes.fill(0);
    }

    pub fn set_byte(&mut self, i: usize, x: u8) {
        set(&mut self.bytes, i, x);
    }

    // Writes a molecule as block d.
    pub fn put(&mut self, d: usize, strand: &Strand) {
        buffer::put_molecule(&mut self.bytes, d, &strand.lent());
    }

    // A call that writes the catalog gets no more of it than there is.
    pub fn has_catalog(&self, sizes: Sizes) -> bool {
        sizes.catalog <= self.bytes.len()
    }

    // As much of the catalog and of the cache as a call gets; None where there is less of a cache. A catalog that goes on into the cache has a block too
    // many already.
    pub fn lend(&mut self, sizes: Sizes) -> Option<(&mut [u8], &mut [u8])> {
        if CACHE_ROOM < sizes.cache {
            return None;
        }
        let (catalog, behind) = split(&mut self.bytes);
        Some((
            first_mut(catalog, sizes.catalog),
            first_mut(behind, sizes.cache),
        ))
    }

    pub fn bank(&self) -> &[u8] {
        rest(&self.bytes, BANK)
    }

    // The sum of the bytes of catalog and cache that a call gets.
    pub fn sum(&self, sizes: Sizes) -> u32 {
        let cache = first(rest(&self.bytes, CACHE), sizes.cache);
        sum(first(&self.bytes, sizes.catalog)).wrapping_add(sum(cache))
    }
}
