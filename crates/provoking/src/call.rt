ghost use Rattle.rule.specs.Answers.{number_reply};
ghost use Rattle.rule.specs.Calls.{Provokes};

use crate::aim::test_aim;
use crate::search::{NO_ROW, lowest};
use rule::{Node, Order, Refusal};

// Provoke: the lowest row that the pass rule allows, that has the fixed values and gives the wanted answer; or why there is none: 1, 4, 5, 6, 7 for the rule, 7
// for the pass rule, 9, then 15.
pub fn provoke(
    n: u8,
    order: Order,
    cells: &[u16],
    used: u16,
    rule: Node,
    wanted: u16,
    pass: Node,
    fixed: u16,
    ones: u16,
) -> Result<u16, Refusal>
    ensures { Provokes n order.places cells.now used rule.number wanted pass.number fixed ones (number_reply result) }
{
    let from = rule.number;
    let passing = pass.number;
    let mut index = [0u16; record_index::INDEX];
    refusing::test_nodes(n, order, cells, used, from, passing, passing, &mut index)?;
    test_aim(n, wanted, fixed, ones)?;
    let row = lowest(n, order, 0, cells, used, wanted, from, passing, fixed, ones);
    if row == NO_ROW {
        return Err(Refusal::NoSuchRow);
    }
    Ok(row)
}
