// The counts of a group.
use super::LINE;
use super::lines::Answer;
use std::io;
use std::num::Wrapping;
use testing::input::{field, number};
use testing::slices::{entry, first};

// What kind of call was accepted.
#[derive(Clone, Copy, Debug, PartialEq, Eq)]
pub enum Kind {
    Update,
    Query,
    Batch,
}

// Accepted calls: how many, and the sums of the two numbers of their answers, modulo 65536.
#[derive(Clone, Copy, Debug, Default)]
pub struct Accepted {
    calls: Wrapping<u16>,
    first: Wrapping<u16>,
    second: Wrapping<u16>,
}

impl Accepted {
    fn count(&mut self, first: usize, second: usize) {
        self.calls += 1;
        self.first += entry(first);
        self.second += entry(second);
    }
}

// Wrong calls, bytes that were set, accepted calls by kind, and refusals by row.
#[derive(Clone, Copy, Debug, Default)]
pub struct Counts {
    pub wrong: Wrapping<u16>,
    pub bytes: Wrapping<u16>,
    updates: Accepted,
    queries: Accepted,
    batches: Accepted,
    refused: [Wrapping<u16>; 16],
}

impl Counts {
    fn count_accepted(&mut self, kind: Kind, first: usize, second: usize) {
        match kind {
            Kind::Update => self.updates.count(first, second),
            Kind::Query => self.queries.count(first, second),
            Kind::Batch => self.batches.count(first, second),
        }
    }

    // A right answer of a call.
    pub fn count(&mut self, kind: Kind, answer: Answer) {
        match answer {
            Answer::Done => self.count_accepted(kind, 0, 0),
            Answer::Numbers(first, second) => self.count_accepted(kind, first, second),
            Answer::Refused(refusal) => {
                if let Some(count) = self.refused.get_mut(refusal.row) {
                    *count += 1;
                }
            }
        }
    }

    // Writes the name of a group and how often calls were wrong and accepted.
    fn report_calls<P: Print>(&self, out: &P, line: &[u8]) -> io::Result<()> {
        let Accepted {
            calls,
            first: arcs,
            second: depths,
        } = self.updates;
        out.write_all(first(field(line, 5..LINE), number(line, 2..4)))?;
        print!(out;
            ": wrong {}; adds and removes {calls} with arcs {arcs}",
            self.wrong
        )?;
        let Accepted {
            calls,
            first: hits,
            second: searches,
        } = self.queries;
        print!(out;
            " and depths {depths}, queries {calls} with hits {hits} and searches {searches}"
        )
    }

    fn report_batches<P: Print>(&self, out: &P) -> io::Result<()> {
        let Accepted {
            calls,
            first: motifs,
            second: reads,
        } = self.batches;
        print!(out; ", batches {calls} of motifs {motifs} with reads {reads}")
    }

    // Writes how many bytes were set, and the refusals.
    fn report_rows<P: Print>(&self, out: &P) -> io::Result<()> {
        print!(out; "; bytes set {}; refused by row", self.bytes)?;
        for (row, count) in self.refused.iter().enumerate() {
            if count.0 != 0 {
                print!(out; " {row}:{count}")?;
            }
        }
        println!(out)
    }

    // Writes the name of a group and its counts without those of batches, and begins anew.
    pub fn report<P: Print>(&mut self, out: &P, line: &[u8]) -> io::Result<()> {
        self.report_calls(out, line)?;
        self.report_rows(out)?;
        *self = Counts::default();
        Ok(())
    }

    // The same with those of batches.
    pub fn report_with_batches<P: Print>(&mut self, out: &P, line: &[u8]) -> io::Result<()> {
        self.report_calls(out, line)?;
        self.report_batches(out)?;
        self.report_rows(out)?;
        *self = Counts::default();
        Ok(())
    }
}
