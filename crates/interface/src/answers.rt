// The answers of the calls as structs of numbers: one for window, one for batch, one for all others.
ghost use Rattle.std.specs.Prelude.{◌≡◌};
ghost use Rattle.interface.specs.Interface.{accepted, refused, accepted_window, refused_window, accepted_batch, refused_batch};
ghost use Rattle.interface.specs.Interface.{check_in_c, match_in_c, window_in_c, verify_in_c, remove_in_c, query_in_c, batch_in_c};

use crate::{Answer, BatchAnswer, WindowAnswer};
use calls::{Batched, MOST_MOTIFS, Queried, Removed};
use embedding::Verified;
use matcher::Matched;
use refusals::Refusal;
use strand::{Checked, Fold};
use window::Windowed;

// Remove and query say nothing of a fold: zeros.
const NO_FOLD: Fold = Fold { arcs: 0, depth: 0 };

// An accepted call, and a refused one.
fn accept(value: usize, searched: usize, fold: Fold) -> Answer
    ensures { result ≡ accepted value searched fold }
{
    Answer {
        refusal: 0,
        side: 0,
        place: 0,
        value,
        searched,
        arcs: fold.arcs,
        depth: fold.depth,
    }
}

fn refuse(x: Refusal) -> Answer
    ensures { result ≡ refused x }
{
    Answer {
        refusal: usize::from(x.rule.number()),
        side: usize::from(x.side.number()),
        place: x.place,
        value: 0,
        searched: 0,
        arcs: 0,
        depth: 0,
    }
}

// An accepted window with the fold of the molecule, and a refused one.
fn accept_window(found: usize, start: usize, length: usize, molecule: Fold) -> WindowAnswer
    ensures { result ≡ accepted_window found start length molecule }
{
    WindowAnswer {
        refusal: 0,
        side: 0,
        place: 0,
        found,
        start,
        length,
        arcs: molecule.arcs,
        depth: molecule.depth,
    }
}

fn refuse_window(x: Refusal) -> WindowAnswer
    ensures { result ≡ refused_window x }
{
    let told = refuse(x);
    WindowAnswer {
        refusal: told.refusal,
        side: told.side,
        place: told.place,
        found: 0,
        start: 0,
        length: 0,
        arcs: 0,
        depth: 0,
    }
}

// An accepted batch, and a refused one, with the numbers of the motifs.
fn accept_batch(
    read: usize,
    counts: [usize; MOST_MOTIFS],
    searched: [usize; MOST_MOTIFS],
) -> BatchAnswer
    ensures { result ≡ accepted_batch read counts searched }
{
    BatchAnswer {
        refusal: 0,
        side: 0,
        place: 0,
        read,
        counts,
        searched,
    }
}

fn refuse_batch(
    x: Refusal,
    counts: [usize; MOST_MOTIFS],
    searched: [usize; MOST_MOTIFS],
) -> BatchAnswer
    ensures { result ≡ refused_batch x counts searched }
{
    let told = refuse(x);
    BatchAnswer {
        refusal: told.refusal,
        side: told.side,
        place: told.place,
        read: 0,
        counts,
        searched,
    }
}

// The struct for the answer of each call. Check, and add, which answers alike.
impl From<Checked> for Answer {
    ghost from_gives = { λ a r. r ≡ check_in_c a };

    fn from(a: Checked) -> Answer {
        match a {
            Ok(fold) => accept(0, 0, fold),
            Err(x) => refuse(x),
        }
    }
}

// Length and show.
impl From<Matched> for Answer {
    ghost from_gives = { λ a r. r ≡ match_in_c a };

    fn from(a: Matched) -> Answer {
        match a {
            Ok(prefix) => accept(prefix.length, 0, prefix.fold),
            Err(x) => refuse(x),
        }
    }
}

// Window.
impl From<Windowed> for WindowAnswer {
    ghost from_gives = { λ a r. r ≡ window_in_c a };

    fn from(a: Windowed) -> WindowAnswer {
        match a {
            Ok(tightest) => match tightest.window {
                Some(window) => accept_window(1, window.start, window.length, tightest.fold),
                None => accept_window(0, 0, 0, tightest.fold),
            },
            Err(x) => refuse_window(x),
        }
    }
}

// Verify.
impl From<Result<Verified, Refusal>> for Answer {
    ghost from_gives = { λ a r. r ≡ verify_in_c a };

    fn from(a: Result<Verified, Refusal>) -> Answer {
        match a {
            Ok(verified) => accept(usize::from(verified.embeds), 0, verified.fold),
            Err(x) => refuse(x),
        }
    }
}

// Remove.
impl From<Removed> for Answer {
    ghost from_gives = { λ a r. r ≡ remove_in_c a };

    fn from(a: Removed) -> Answer {
        match a {
            Ok(()) => accept(0, 0, NO_FOLD),
            Err(x) => refuse(x),
        }
    }
}

// Query.
impl From<Queried> for Answer {
    ghost from_gives = { λ a r. r ≡ query_in_c a };

    fn from(a: Queried) -> Answer {
        match a {
            Ok(hits) => accept(hits.count, hits.searched, NO_FOLD),
            Err(x) => refuse(x),
        }
    }
}

// Batch.
impl From<Batched> for BatchAnswer {
    ghost from_gives = { λ a r. r ≡ batch_in_c a };

    fn from(a: Batched) -> BatchAnswer {
        match a.read {
            Ok(read) => accept_batch(read, a.counts, a.searched),
            Err(x) => refuse_batch(x, a.counts, a.searched),
        }
    }
}
