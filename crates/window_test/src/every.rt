// The tightest window by trying every one: the shorter before the longer, of one length the earlier before the later. Each is cut out as a molecule of its
// own, and it carries the motif where brute force finds an embedding of it there. For molecules of up to 16 bases.
use testing::brute;
use testing::pairs::Pair;
use testing::slices::{entry, first, position_at, rest};
use testing::strands::lend;
use window::Window;

// Room for the mates and the places.
const ROOM: usize = 16;

// The mate of base i of a window, where it has this mate in the molecule: unbonded if that lies outside.
fn mate_inside(window: Window, i: usize, mate: Option<usize>) -> u16 {
    match mate.and_then(|mate| mate.checked_sub(window.start)) {
        Some(inside) if inside < window.length => entry(inside),
        _ => entry(i),
    }
}

// Writes the mates of a window as a molecule of its own.
fn cut(mates: &[u16], window: Window, to: &mut [u16]) {
    let inside = rest(mates, window.start);
    for (i, mate) in to.iter_mut().enumerate().take(window.length) {
        *mate = mate_inside(window, i, position_at(inside, i));
    }
}

fn carries(pair: &Pair, window: Window) -> bool {
    let mut mates = [0u16; ROOM];
    cut(&pair.molecule.mates, window, &mut mates);
    let molecule = lend(
        first(rest(&pair.molecule.bases, window.start), window.length),
        first(&mates, window.length),
    );
    let found = brute::longest(&pair.motif.lent(), &molecule, &mut [0u16; ROOM], 0, 0);
    found == pair.motif.bases.len()
}

// The first window of so many bases that carries the motif.
fn first_window(pair: &Pair, length: usize) -> Option<Window> {
    let n = pair.molecule.bases.len();
    for start in 0..n {
        if n - start < length {
            break;
        }
        let window = Window { start, length };
        if carries(pair, window) {
            return Some(window);
        }
    }
    None
}

pub fn tightest(pair: &Pair) -> Option<Window> {
    for length in 0..=pair.molecule.bases.len() {
        let window = first_window(pair, length);
        if window.is_some() {
            return window;
        }
    }
    None
}
