ghost use Rattle.std.specs.Prelude.{◌≤◌};
ghost use Rattle.rule.specs.Cells.{most_records, room};
ghost use Rattle.record_index.specs.Index.{Indexed};
ghost use Rattle.unique.specs.Node.{MakesAbove};

use crate::node::{Grown, make};

// The node that asks a flag above a low node and what was found for the high branch, the last step of a recursion over both. No room there is no room here.
pub fn make_above(
    cells: &mut [u16],
    index: &mut [u16; record_index::INDEX],
    flag: u16,
    low: u16,
    second: Grown,
) -> Grown
    requires { (second.used ≤ room cells.old) × (room cells.old ≤ most_records) × Indexed cells.old second.used index.old }
    ensures { MakesAbove cells.old flag low second result cells.new × Indexed cells.new result.used index.new }
{
    match second.found {
        None => second,
        Some(high) => make(cells, index, second.used, flag, low, high),
    }
}
