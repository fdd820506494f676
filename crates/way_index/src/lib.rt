// The index beside a stretch that is folded (document 001, chapter 3), in an array of the call's own: for each hash the last way entered that has it, and for each way entered the last
// one before it with the same hash, each as its number plus 1, or 0 for none. Only the first of the ways with the same two codes is entered.
#![tactic(auto)]

ghost use Rattle.std.specs.Prelude.{◌≡◌, ◌+◌, ◌*◌, ◌<◌, length};
ghost use Rattle.way_index.specs.Index.{hash, heads, New, First, Indexed};

use ways::Halves;

// How many hashes there are.
const HEADS: usize = 1024;

// The most ways that a stretch can be folded to.
const LINKS: usize = 512;

// The length of an index: its heads, then a link for each way. All of it is 0 where no way is entered.
pub const INDEX: usize = HEADS + LINKS;

// What the second code is multiplied by in a hash.
const FACTOR: usize = 633;

// The hash of two codes.
fn hash(low: u16, high: u16) -> usize
    ensures { (result ≡ hash low high) × (result < heads) }
{
    (low as usize + high as usize * FACTOR) % HEADS
}

// The first way with the codes of way i.
fn find(halves: Halves, index: &[u16; INDEX], i: u16) -> u16
    requires { (i * 2 < length halves.source.now) × Indexed halves.source.now halves.p i index.now }
    ensures { First halves.entry.source.now halves.entry.p i result }
{
    let low = halves.code_at(i, 0);
    let high = halves.code_at(i, 1);
    let mut at = index[hash(low, high)];
    while 0 < at {
        let k = at - 1;
        if halves.code_at(k, 0) == low {
            if halves.code_at(k, 1) == high {
                return k;
            }
        }
        at = index[HEADS + k as usize];
    }
    i
}

// Enters way i, which is the first with its codes.
fn enter(halves: Halves, index: &mut [u16; INDEX], i: u16)
    requires { (i * 2 < length halves.source.now) × Indexed halves.source.now halves.p i index.old × New halves.source.now halves.p i }
    ensures { Indexed halves.entry.source.now halves.entry.p (i + 1) index.new }
{
    let low = halves.code_at(i, 0);
    let high = halves.code_at(i, 1);
    let h = hash(low, high);
    index[HEADS + i as usize] = index[h];
    index[h] = i + 1;
}

// The first way with the codes of way i, which is entered where it is i itself.
pub fn find_or_enter(halves: Halves, index: &mut [u16; INDEX], i: u16) -> u16
    requires { (i * 2 < length halves.source.now) × Indexed halves.source.now halves.p i index.old }
    ensures { First halves.entry.source.now halves.entry.p i result × Indexed halves.entry.source.now halves.entry.p (i + 1) index.new }
{
    let first = find(halves, index, i);
    if first < i {
        return first;
    }
    enter(halves, index, i);
    first
}
