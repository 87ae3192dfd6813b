// Nesting by levels: mates that are mutual are nested exactly when as many arcs are open before each arc as behind it.
ghost use Rattle.std.specs.Prelude.{◌≡◌, ◌<◌, ◌≤◌, length, replicate};
ghost use Rattle.lists.specs.Vocabulary.{nth, tab, same_list};
ghost use Rattle.strand.specs.Strands.{is_nested, Inside, greatest_length};
ghost use Rattle.strand.specs.Levels.{unbonded, name_at, NamesTold};

// A name is this times the sum of a base and its mate, and the level, which is less than this (specs/Levels).
const NAME_STEP: u32 = 65536;

// Whether every base is its own mate. No branch depends on a mate, and the place is counted in 16 bits too, as in depth::arc_count.
pub fn all_unbonded(mates: &[u16]) -> bool
    requires { length mates.now ≤ greatest_length }
    ensures { result ≡ unbonded mates.now }
{
    let mut bonded: u16 = 0;
    let mut place: u16 = 0;
    for mate in mates {
        bonded += (*mate != place) as u16;
        place += 1;
    }
    bonded == 0
}

// The name of each base (specs/Levels), at its own place in `own` and at its mate's place in `told`. `next` is NAME_STEP times i, and the level before i: the
// number of bases, and the arcs begun less those ended. In 32 bits: with places of `usize` the walk takes a quarter longer.
fn put_names(mates: &[u16], own: &mut [u32], told: &mut [u32])
    requires inside { Inside (nth mates.now) (length mates.now) }
    requires mates_len_bound { length mates.now ≤ greatest_length }
    requires own_len { length own.old ≡ length mates.now }
    requires told_value { told.old ≡ replicate (length mates.now) 0 }
    ensures own_after { own.new ≡ tab (length mates.now) (name_at mates.now) }
    ensures names_told { NamesTold mates.now (length mates.now) told.new }
{
    let mut next = mates.len() as u32;
    for (i, mate) in mates.iter().enumerate() {
        let place = i as u32;
        let j = *mate as u32;
        next -= (j < place) as u32;
        let name = NAME_STEP * j + next;
        own[i] = name;
        told[j as usize] = name;
        next += NAME_STEP + (place < j) as u32;
    }
}

// Whether two lists of names are the same. No branch depends on a name, so the processor compares several at a time: `==`, which may stop at any, takes
// nearly twice as long.
fn same_names(a: &[u32], b: &[u32]) -> bool
    requires a_len { length a.now ≡ length b.now }
    requires a_len_bound { length a.now ≤ greatest_length }
    ensures { result ≡ same_list a.now b.now }
{
    let mut differing: u32 = 0;
    for (i, name) in a.iter().enumerate() {
        differing += (*name != b[i]) as u32;
    }
    differing == 0
}

// Whether the mates are mutual and nested. Callers have found them in range, and lend two slices for the names, the second of zeros.
pub fn is_nested(mates: &[u16], own: &mut [u32], told: &mut [u32]) -> bool
    requires inside { Inside (nth mates.now) (length mates.now) }
    requires mates_len_bound { length mates.now ≤ greatest_length }
    requires own_len { length own.old ≡ length mates.now }
    requires told_value { told.old ≡ replicate (length mates.now) 0 }
    ensures { result ≡ is_nested mates.now }
{
    put_names(mates, own, told);
    same_names(own, told)
}
