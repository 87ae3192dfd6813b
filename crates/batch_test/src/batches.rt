// The call batch, on slices of the lengths that a line gives, and what it answers and leaves.
use calls::Batched;
use catalog_testing::counts::Kind;
use catalog_testing::image::BLOCK;
use catalog_testing::lines::{Answer, Sizes, is_sum};
use catalog_testing::{Bench, FILL};
use std::alloc::{AllocError, Global};
use std::io;
use testing::answer::Refusal;
use testing::input::{digit_at, number};
use testing::lent::Lent;
use testing::slices::{entry, further};

// For 512 molecules and 17 motifs.
const HITS_ROOM: usize = 8704;

// The most bytes of a motif buffer: 17 blocks.
const MOST_BYTES: usize = 8704;

// The hits of batches.
#[derive(Debug, Drop)]
pub struct Batches {
    hits: Lent,
}

// The sum of numbers below 65536, behind those that another sum is of.
fn sum_on(before: u32, numbers: &[usize]) -> u32 {
    numbers
        .iter()
        .fold(before, |sum, n| further(sum, u32::from(entry(*n))))
}

// The sum of the numbers of an answer: how many molecules were read, none after a refusal, then the counts and the searched numbers.
fn sum_of(batched: &Batched) -> u32 {
    let read = batched.read.unwrap_or(0);
    let counts = sum_on(u32::from(entry(read)), &batched.counts);
    sum_on(counts, &batched.searched)
}

// Byte i of the motif buffer of a line: each of its blocks is one of the bank, by a digit; behind the bank are zeros.
fn motif_byte(line: &[u8], bank: &[u8], i: usize) -> u8 {
    let block = usize::from(digit_at(line, i / BLOCK % 64 + 43)) % 64;
    bank.get(block * BLOCK + i % BLOCK).copied().unwrap_or(0)
}

// The motif buffer of a line; None for more bytes than there is room.
fn motifs(alloc: Global, line: &[u8], bank: &[u8]) -> Result<Option<Vec<u8>>, AllocError> {
    let n = number(line, 2..9);
    if MOST_BYTES < n {
        return Ok(None);
    }
    let bytes = (0..n).map(|i| motif_byte(line, bank, i)).collect(alloc)?;
    Ok(Some(bytes))
}

impl Batches {
    pub fn new(alloc: Global) -> Result<Batches, AllocError> {
        Ok(Batches {
            hits: Lent::new(alloc, FILL, HITS_ROOM)?,
        })
    }

    // Makes the batch of these motifs; None where its line asks for more than there is room.
    fn made(&mut self, line: &[u8], bench: &mut Bench, motifs: &[u8]) -> Option<Batched> {
        let sizes = Sizes::of(line);
        self.hits.begin(number(line, 61..66));
        bench.work.begin(sizes.work);
        if self.hits.is_short() || bench.work.is_short() {
            return None;
        }
        let (catalog, cache) = bench.image.lend(sizes)?;
        let (work, hits) = (bench.work.part(), self.hits.part());
        Some(batch::batch(catalog, cache, motifs, work, hits))
    }

    // The batch of a line, held to it.
    pub fn ask<R: Print + AllocGlobal>(
        &mut self,
        rt: &R,
        line: &[u8],
        bench: &mut Bench,
    ) -> io::Result<()> {
        let Some(motifs) = motifs(rt.alloc(), line, bench.image.bank())? else {
            return bench.judge(rt, line, Kind::Batch, None, false);
        };
        let Some(batched) = self.made(line, bench, &motifs) else {
            return bench.judge(rt, line, Kind::Batch, None, false);
        };
        let answer = Some(match batched.read {
            Ok(read) => Answer::Numbers(motifs.len() / BLOCK, read),
            Err(refusal) => Answer::Refused(Refusal::from(refusal)),
        });
        let right = is_sum(line, 67..77, sum_of(&batched)) && bench.hold(line, answer, &self.hits);
        bench.judge(rt, line, Kind::Batch, answer, right)
    }
}
