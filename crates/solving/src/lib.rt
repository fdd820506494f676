// One set of the search for the packed order: its stretch, its least cost and the flag that is asked first (document 01, "Packing"; document 001,
// chapter 3).
#![tactic(auto)]

ghost use Rattle.std.specs.Prelude.{◌≡◌, ◌≢◌, ◌≤◌, ◌<◌, ◌^◌};
ghost use Rattle.rule.specs.Bits.{bit};
ghost use Rattle.costing.specs.Ready.{Ready, Lowest};
ghost use Rattle.costing.specs.Choice.{Bounded};
ghost use Rattle.solving.specs.Solves.{Folded, Solves};

use stretches::{LONGEST, SET_COUNT};
use ways::Halves;

// The smallest flag of a set that is not empty.
fn lowest(set: u16) -> u16
    requires { set ≢ 0 }
    ensures { Lowest set result }
{
    set.trailing_zeros() as u16
}

// Folds the stretch of the set without v into the set's own. The one that is read is held aside: only one part of the workspace can be lent to be written.
fn fold(n: u8, set: u16, v: u16, starts: &[usize; SET_COUNT], workspace: &mut [u16])
    requires { Ready n set starts.now workspace.old × (bit set v ≡ 1) }
    ensures { Folded n set v workspace.old workspace.new }
{
    let mut held = [0u16; LONGEST];
    let source = stretches::locate(n, starts, bits::set_bit(set, v, 0));
    let from = source.start;
    let to = source.end;
    let len = to - from;
    cells::copy(&workspace[from..to], &mut held[0..len]);
    let own = stretches::locate(n, starts, set);
    let start = own.start;
    let end = own.end;
    let halves = Halves::new(&held[0..len], ways::place_of(set, v));
    folding::fold(halves, &mut workspace[start..end]);
}

// Solves one set, whose subsets are solved.
pub fn solve(
    n: u8,
    set: u16,
    starts: &[usize; SET_COUNT],
    workspace: &mut [u16],
    least: &mut [u32; SET_COUNT],
    first: &mut [u16; SET_COUNT],
)
    requires { Ready n set starts.now workspace.old × Bounded n least.old }
    ensures { Solves n set workspace.old least.old first.old workspace.new least.new first.new }
{
    let v = lowest(set);
    fold(n, set, v, starts, workspace);
    let choice = costing::cheapest(n, set, v, starts, workspace, least);
    least[set as usize] = choice.cost;
    first[set as usize] = choice.flag;
}
