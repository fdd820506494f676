// The ways of a set (document 01, "Packing"; document 001, chapter 3): a way fixes the flags outside the set, and its number has their values as bits. The
// code that a way has in a stretch is read by that number.
#![tactic(auto)]

ghost use Rattle.std.specs.Prelude.{◌≡◌, ◌*◌, ◌<◌, length};
ghost use Rattle.ways.specs.Ways.{insert_bit, place_of, Foldable, code_at};
ghost use Rattle.ways.specs.Once.{Foldable-prop};

// Way i with one flag more, at place p, fixed to b.
fn insert_bit(i: u16, p: u16, b: u16) -> u16
    requires { (i < 1024) × (p < 10) × (b < 2) }
    ensures { result ≡ insert_bit i p b }
{
    i + (((i >> p) + b) << p)
}

// The place of a flag among the flags outside a set.
pub fn place_of(set: u16, v: u16) -> u16
    requires { v < 10 }
    ensures { result ≡ place_of set v }
{
    let lower = set - ((set >> v) << v);
    v - u16::count_ones(lower) as u16
}

// A stretch to be folded at bit p, read in its two halves.
#[derive(Clone, Copy)]
pub struct Halves<'a> {
    pub source: &'a [u16],
    pub p: u16,
    pub ghost foldable: { Foldable source.now p } by { Foldable-prop source.now p },
}

impl<'a> Halves<'a> {
    pub fn new(source: &'a [u16], p: u16) -> Halves<'a>
        requires { Foldable source.now p }
        ensures { (result.source.now ≡ source.now) × (result.p ≡ p) }
    {
        Halves { source, p }
    }

    // The code that way i of the folded stretch has in half b of the source.
    pub fn code_at(self, i: u16, b: u16) -> u16
        requires { (i * 2 < length self.source.now) × (b < 2) }
        ensures { result ≡ code_at self.entry.source.now self.entry.p i b }
    {
        self.source[insert_bit(i, self.p, b) as usize]
    }
}
