// The motif buffer of a batch: which refusal of it applies first, and its motifs unpacked, each once for all molecules.
#![tactic(auto)]

ghost use Rattle.std.specs.Prelude.{◌≡◌, true, not, ◌<◌, length, take, nat_lt};
ghost use Rattle.std.specs.List.{find, range_with_len};
ghost use Rattle.block.specs.Block.{block_of, block_count};
ghost use Rattle.block.specs.Motif.{holds_motif};
ghost use Rattle.calls.specs.Buffers.{most_motif_bases};
ghost use Rattle.calls.specs.Motifs.{motif_of, motifs_verdict, UsableMotifs, longest_motif};
ghost use Rattle.motifs.specs.Unpacked.{AllMotifs, MatesOf, TablesOf};

use block::layout;
use refusals::{Rule, Side, Verdict, refuse};
use strand::Strand;

// Where the mates begin in a block handed in as a motif.
const MOTIF_MATES_AT: usize = layout::MOTIF_START + layout::BLOCK_BASES;

// The lowest block that has no motif.
fn first_without(motifs: &[u8]) -> Option<usize>
    ensures { result ≡ find (λ t. not (holds_motif (block_of t motifs.now))) (range_with_len 0 (block_count motifs.now)) }
{
    let n = layout::block_count(motifs);
    (0..n).find(|t| !block::sound::holds_motif(layout::block_at(motifs, *t)))
}

// The number of bases of motif t: the length byte of its block.
fn count_at(motifs: &[u8], t: usize) -> usize
    requires { (t < block_count motifs.now) × (holds_motif (block_of t motifs.now) ≡ true) }
    ensures { result ≡ length (motif_of motifs.now t).bases }
{
    let b = layout::block_at(motifs, t);
    usize::from(b[1])
}

// The lowest motif that is too long for a query.
fn first_long(motifs: &[u8]) -> Option<usize>
    requires { AllMotifs motifs.now }
    ensures { result ≡ find (λ t. nat_lt most_motif_bases (length (motif_of motifs.now t).bases)) (range_with_len 0 (block_count motifs.now)) }
{
    let n = layout::block_count(motifs);
    (0..n).find(|t| layout::ENTRY_BASES < count_at(motifs, *t))
}

// Rules 15 and 3 of a batch.
pub fn judge(motifs: &[u8]) -> Verdict
    ensures { result ≡ motifs_verdict motifs.now }
{
    if !judge::is_whole(motifs, calls::MOST_MOTIFS) {
        return refuse(Rule::BadMotifs, Side::Motif, 0);
    }
    if let Some(without) = first_without(motifs) {
        return refuse(Rule::BadMotifs, Side::Motif, without);
    }
    if let Some(long) = first_long(motifs) {
        return refuse(Rule::TooLong, Side::Motif, long);
    }
    Ok(())
}

// The number of bases of the longest motif.
pub fn longest(motifs: &[u8]) -> usize
    requires { UsableMotifs motifs.now }
    ensures { result ≡ longest_motif motifs.now }
{
    let mut m = 0usize;
    for t in 0..layout::block_count(motifs) {
        m = m.max(count_at(motifs, t));
    }
    m
}

// The bases of motif t, where they stand in the buffer.
pub fn bases_at(motifs: &[u8], t: usize) -> &[u8]
    requires { UsableMotifs motifs.now × (t < block_count motifs.now) }
    ensures { result.now ≡ (motif_of motifs.now t).bases }
{
    let b = layout::block_at(motifs, t);
    let e = layout::MOTIF_START + usize::from(b[1]);
    &b[layout::MOTIF_START..e]
}

// The mates of motif t, to the start of the entries.
fn read_mates(motifs: &[u8], t: usize, mates: &mut [u16])
    requires { UsableMotifs motifs.now × (t < block_count motifs.now) × (length mates.old ≡ most_motif_bases) }
    ensures { take (length (motif_of motifs.now t).bases) mates.new ≡ (motif_of motifs.now t).mates }
{
    let src = layout::block_at(motifs, t);
    let n = usize::from(src[1]);
    octets::scan::read_words(&src[MOTIF_MATES_AT..], &mut mates[..n]);
}

// The tables of all motifs, a row for each.
pub type Tables = [[u16; walk::QUERY_TABLES]; calls::MOST_MOTIFS];

// The motifs of a batch: their blocks, where the bases stay, and a row of mates for each. Nobody copies the rows, so it is no Clone. The fields are
// public, since the contracts of batch name them.
#[derive(Drop)]
pub struct Motifs<'a> {
    pub blocks: &'a [u8],
    pub mates: [[u16; layout::ENTRY_BASES]; calls::MOST_MOTIFS],
    ghost usable: { UsableMotifs blocks.now },
    ghost mates_of: { MatesOf blocks.now mates },
}

impl<'a> Motifs<'a> {
    // The mates of all motifs are read here.
    pub fn new(blocks: &'a [u8]) -> Motifs<'a>
        requires { UsableMotifs blocks.now }
        ensures { result.blocks.now ≡ blocks.now }
    {
        let mut mates = [[0u16; layout::ENTRY_BASES]; calls::MOST_MOTIFS];
        for t in 0..layout::block_count(blocks) {
            read_mates(blocks, t, &mut mates[t]);
        }
        Motifs { blocks, mates }
    }

    // How many motifs there are.
    pub fn count(&self) -> usize
        ensures { result ≡ block_count self.now.blocks.now }
    {
        layout::block_count(self.blocks)
    }

    // The bases of motif t, where they stand in its block.
    fn bases_at(&self, t: usize) -> &[u8]
        requires { t < block_count self.now.blocks.now }
        ensures { result.now ≡ (motif_of self.now.blocks.now t).bases }
    {
        bases_at(self.blocks, t)
    }

    // The mates of motif t.
    fn mates_at(&self, t: usize) -> &[u16]
        requires { t < block_count self.now.blocks.now }
        ensures { result.now ≡ (motif_of self.now.blocks.now t).mates }
    {
        let n = count_at(self.blocks, t);
        let rows = &self.mates;
        &rows[t][..n]
    }

    // Motif t.
    pub fn motif_at(&self, t: usize) -> Strand<'_>
        requires { t < block_count self.now.blocks.now }
        ensures { (result.bases.now ≡ (motif_of self.now.blocks.now t).bases) × (result.mates.now ≡ (motif_of self.now.blocks.now t).mates) }
    {
        let bases = self.bases_at(t);
        let mates = self.mates_at(t);
        Strand { bases, mates }
    }

    // The tables of all motifs.
    pub fn tables(&self) -> Tables
        ensures { TablesOf self.now.blocks.now result }
    {
        let mut tables = [[0u16; walk::QUERY_TABLES]; calls::MOST_MOTIFS];
        for t in 0..self.count() {
            walk::prepare(&self.motif_at(t), &mut tables[t]);
        }
        tables
    }
}
