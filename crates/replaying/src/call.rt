ghost use Rattle.rule.specs.Calls.{Replays};
ghost use Rattle.rule.specs.Pass.{pass_of};
ghost use Rattle.tallying.specs.Tally.{tallied_reply};

use crate::log::{tally_of, test_log};
use rule::{Node, Order, Refusal};
use tallying::Tally;
use walking::pass_node;

// Replay: the tally of a log that is played through a rule under a pass rule, if it has one; or why there is none: 1, 4, 5, 6, 7 for the rule, 7 for the pass
// rule, 16, then for each snapshot 9 and 14.
pub fn replay(
    n: u8,
    order: Order,
    cells: &[u16],
    used: u16,
    rule: Node,
    pass: Option<Node>,
    log: &[u8],
) -> Result<Tally, Refusal>
    ensures { Replays n order.places cells.now used rule.number (pass_of pass) log.now (tallied_reply result) }
{
    let from = rule.number;
    let passing = pass_node(pass);
    let mut index = [0u16; record_index::INDEX];
    refusing::test_nodes(n, order, cells, used, from, passing, passing, &mut index)?;
    test_log(n, cells, used, passing, log)?;
    Ok(tally_of(cells, used, from, log))
}
