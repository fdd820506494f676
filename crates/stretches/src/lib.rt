// The stretches of pack's workspace: the one crate that knows where a set's stretch stands and how long it is (document 01, "Packing").
#![tactic(auto)]

ghost use Rattle.std.specs.Prelude.{◌≡◌, ◌≤◌, ◌<◌, ◌^◌};
ghost use Rattle.rule.specs.Sets.{stretch};
ghost use Rattle.stretches.specs.Stretch.{Starts, PartOf};

// How many sets of ten flags there are.
pub const SET_COUNT: usize = 1024;

// The cells of the longest stretch, that of the empty set.
pub const LONGEST: usize = 1024;

// A part of the workspace: its first cell, and the one behind its last.
#[derive(Clone, Copy)]
pub struct Part {
    pub start: usize,
    pub end: usize,
}

// The cells of a set's stretch: 2^(n−k) for k flags.
fn length(n: u8, set: u16) -> usize
    requires { (n ≤ 10) × (set < 2 ^ n) }
    ensures { result ≡ stretch n set }
{
    1 << (n as u32 - sets::size_of(set))
}

// Where each set's stretch starts: behind those of the sets with smaller numbers.
pub fn starts(n: u8) -> [usize; SET_COUNT]
    requires { n ≤ 10 }
    ensures { Starts n result }
{
    let mut starts = [0usize; SET_COUNT];
    let end = arguments::row_count(n) as u16;
    let mut at: usize = 0;
    for set in 0..end {
        starts[set as usize] = at;
        at += length(n, set);
    }
    starts
}

// The stretch of a set.
pub fn locate(n: u8, starts: &[usize; SET_COUNT], set: u16) -> Part
    requires { Starts n starts.now × (set < 2 ^ n) }
    ensures { PartOf n set result.start result.end }
{
    let start = starts[set as usize];
    let end = start + length(n, set);
    Part { start, end }
}

// The cells of the workspace for n flags: 3^n.
pub fn cell_count(n: u8) -> usize
    requires { n ≤ 10 }
    ensures { result ≡ 3 ^ n }
{
    3usize.pow(n as u32)
}
