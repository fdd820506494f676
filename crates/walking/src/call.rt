ghost use Rattle.rule.specs.Answers.{done_reply, said_reply};
ghost use Rattle.rule.specs.Calls.{Walks, Tabulates};
ghost use Rattle.rule.specs.Pass.{pass_of};

use crate::pass::{pass_node, test_row};
use crate::steps::descend;
use rule::{Node, Order, Refusal, Said};

// Walk: the answer of a node in a row that its pass rule, if it has one, allows, the set of the flags asked and their number; or why there is none: 1, 4, 5, 6,
// 7 for the node, 7 for the pass rule's, 9, then 14.
pub fn walk(
    n: u8,
    order: Order,
    cells: &[u16],
    used: u16,
    node: Node,
    pass: Option<Node>,
    row: u16,
) -> Result<Said, Refusal>
    ensures { Walks n order.places cells.now used node.number (pass_of pass) row (said_reply result) }
{
    let mut index = [0u16; record_index::INDEX];
    checking::test_records(n, order, cells, used, &mut index)?;
    let from = node.number;
    let passing = pass_node(pass);
    let last = used + 1;
    if last < from {
        return Err(Refusal::NodeNumber);
    }
    if last < passing {
        return Err(Refusal::NodeNumber);
    }
    test_row(n, cells, used, passing, row)?;
    let descent = descend(cells, used, from, row);
    Ok(Said {
        answer: descent.end as u8,
        asked: descent.asked,
        count: descent.count as u8,
    })
}

// Tabulate: the table of a node in lent bytes, or why there is none: 1, 2, 4, 5, 6, then 7.
pub fn tabulate(
    n: u8,
    order: Order,
    cells: &[u16],
    used: u16,
    node: Node,
    bytes: &mut [u8],
) -> Result<(), Refusal>
    ensures { Tabulates n order.places cells.now used node.number bytes.old (done_reply result) bytes.new }
{
    if 10 < n {
        return Err(Refusal::FlagCount);
    }
    if bytes.len() != arguments::row_count(n) {
        return Err(Refusal::TableLength);
    }
    let mut index = [0u16; record_index::INDEX];
    checking::test_records(n, order, cells, used, &mut index)?;
    let from = node.number;
    if used + 1 < from {
        return Err(Refusal::NodeNumber);
    }
    tabulating::fill(n, order, 0, 0, cells, used, from, bytes);
    Ok(())
}
