ghost use Rattle.rule.specs.Answers.{made_reply};
ghost use Rattle.rule.specs.Calls.{Constant};
ghost use Rattle.making.specs.State.{state};

use rule::{Node, Order, Refusal};

// The end node of a value, for which no record is needed.
pub fn constant(n: u8, order: Order, cells: &[u16], used: u16, value: u16) -> Result<Node, Refusal>
    ensures { Constant (state n order.places used) cells.now value (made_reply result) (state n order.places used) cells.now }
{
    refusing::test_constant(n, order, cells, used, value)?;
    if value == 0 {
        Ok(Node::NO)
    } else {
        Ok(Node::YES)
    }
}
