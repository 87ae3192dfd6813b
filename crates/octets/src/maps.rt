// Two maps of 64 bytes as sets of numbers, byte by byte: the numbers of one taken out of the other, kept in it or joined to it.
ghost use Rattle.std.specs.Prelude.{◌≡◌, ℕ, not, ◌&&◌, ◌||◌, ◌+◌, ◌<◌, ◌≤◌, length};
ghost use Rattle.lists.specs.Vocabulary.{nth};
ghost use Rattle.octets.specs.Octets.{map_bit, map_size, map_bytes};

// Each byte of the map becomes what f makes of it and of the byte at its place in the map at `at` of s.
fn combine<F: Fn(u8, u8) -> u8>(map: &mut [u8], s: &[u8], at: usize, f: F)
    requires callable { F.IsAlwaysCallable f }
    requires within { at + length map.old ≤ length s.now }
    ensures len { length map.new ≡ length map.old }
    ensures each { (j : ℕ) → j < length map.old → F.post f (nth map.old j) (nth s.now (at + j)) (nth map.new j) }
{
    for (j, byte) in map.iter_mut().enumerate() {
        *byte = f(*byte, s[at + j]);
    }
}

// Take the numbers of the map at `at` of s out of the map. Callers lend one map and name one that lies in s.
pub fn take_out(map: &mut [u8], s: &[u8], at: usize)
    requires { (length map.old ≡ map_size) × (at + map_size ≤ length s.now) }
    ensures { map.new ≡ map_bytes (λ d. map_bit map.old 0 d && not (map_bit s.now at d)) }
{
    combine(map, s, at, |x, y| x & !y);
}

// Keep the numbers of the map that are in the map at `at` of s too.
pub fn keep(map: &mut [u8], s: &[u8], at: usize)
    requires { (length map.old ≡ map_size) × (at + map_size ≤ length s.now) }
    ensures { map.new ≡ map_bytes (λ d. map_bit map.old 0 d && map_bit s.now at d) }
{
    combine(map, s, at, |x, y| x & y);
}

// Put the numbers of the map at `at` of s into the map.
pub fn join(map: &mut [u8], s: &[u8], at: usize)
    requires { (length map.old ≡ map_size) × (at + map_size ≤ length s.now) }
    ensures { map.new ≡ map_bytes (λ d. map_bit map.old 0 d || map_bit s.now at d) }
{
    combine(map, s, at, |x, y| x | y);
}
