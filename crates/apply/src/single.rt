ghost use Rattle.std.specs.Prelude.{◌<◌};
ghost use Rattle.rule.specs.Results.{made_in, flag as flag-of};
ghost use Rattle.apply.specs.Grow.{Ready, Comes};

use levels::Levels;
use rule::Node;
use unique::Grown;

// The node of the rule that says yes where the flag is 1.
pub fn flag_node(
    levels: Levels,
    flag: u16,
    cells: &mut [u16],
    index: &mut [u16; record_index::INDEX],
    used: u16,
) -> Grown
    requires { (flag < levels.n) × Ready levels cells.old used index.old }
    ensures { Comes levels (made_in levels.n cells.old (flag-of flag)) 0 cells.old used result cells.new index.new }
{
    unique::make(cells, index, used, flag, Node::NO.number, Node::YES.number)
}
