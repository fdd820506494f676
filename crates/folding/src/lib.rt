// Folding (document 01, "Packing"; document 001, chapter 3): the codes of a set's ways, made from those of the set without one flag, and the numbers of nodes
// and of ways that ask that flag while the set is still to be asked. The search of pack goes through the sets with these.
#![tactic(auto)]

ghost use Rattle.std.specs.Prelude.{◌≡◌, ◌*◌, length};
ghost use Rattle.folding.specs.Fold.{Folds, Counts};

use way_index::{INDEX, find_or_enter};
use ways::Halves;

// Folds the halves into the lent stretch: the code of a way is the first way that has the same code in both halves of the source.
pub fn fold(halves: Halves, stretch: &mut [u16])
    requires { length halves.source.now ≡ length stretch.old * 2 }
    ensures { Folds halves.entry.source.now halves.entry.p stretch.new }
{
    let mut index = [0u16; INDEX];
    for (i, code) in stretch.iter_mut().enumerate() {
        *code = find_or_enter(halves, &mut index, i as u16);
    }
}

// How many ways ask a flag, those whose halves differ, and how many nodes: the ways of these that are the first with their code.
#[derive(Clone, Copy)]
pub struct Asking {
    pub nodes: u64,
    pub ways: u16,
}

// Both counts, held in 16 bits: there are at most 512 ways, so a level never has more than 512 nodes. The codes may have been folded from another source.
pub fn count(halves: Halves, codes: &[u16]) -> Asking
    requires { length halves.source.now ≡ length codes.now * 2 }
    ensures { Counts halves.entry.source.now halves.entry.p codes.now result.nodes result.ways }
{
    let mut nodes: u16 = 0;
    let mut ways: u16 = 0;
    for i in 0..codes.len() as u16 {
        if halves.code_at(i, 0) != halves.code_at(i, 1) {
            ways += 1;
            if codes[i as usize] == i {
                nodes += 1;
            }
        }
    }
    Asking {
        nodes: nodes as u64,
        ways,
    }
}
