ghost use Rattle.rule.specs.Answers.{made_reply};
ghost use Rattle.rule.specs.Calls.{Flag, Join, Choose, Fix};
ghost use Rattle.making.specs.State.{state};

use concluding::{Outcome, conclude};
use levels::Levels;
use rule::{Node, Order};

// The node of the rule that is one flag.
pub fn flag(n: u8, order: Order, cells: &mut [u16], used: u16, i: u16) -> Outcome
    ensures { Flag (state n order.places used) cells.old i (made_reply result.answer) (state n order.places result.used) cells.new }
{
    let mut index = [0u16; record_index::INDEX];
    if let Err(refusal) = refusing::test_flag(n, order, cells, used, i, &mut index) {
        return Outcome {
            used,
            answer: Err(refusal),
        };
    }
    let levels = Levels::turn(n, order);
    let grown = apply::flag_node(levels, i, cells, &mut index, used);
    conclude(cells, used, grown)
}

// The node of two rules joined by an operator.
pub fn join(
    n: u8,
    order: Order,
    cells: &mut [u16],
    used: u16,
    code: u8,
    first: Node,
    second: Node,
) -> Outcome
    ensures { Join (state n order.places used) cells.old code first.number second.number (made_reply result.answer) (state n order.places result.used) cells.new }
{
    let f = first.number;
    let g = second.number;
    let mut index = [0u16; record_index::INDEX];
    if let Err(refusal) = refusing::test_join(n, order, cells, used, code, f, g, &mut index) {
        return Outcome {
            used,
            answer: Err(refusal),
        };
    }
    let levels = Levels::turn(n, order);
    let grown = joining::join_nodes(levels, code, 0, f, g, cells, &mut index, used);
    conclude(cells, used, grown)
}

// The node of the second rule where the first says yes, else of the third.
pub fn choose(
    n: u8,
    order: Order,
    cells: &mut [u16],
    used: u16,
    first: Node,
    second: Node,
    third: Node,
) -> Outcome
    ensures { Choose (state n order.places used) cells.old first.number second.number third.number (made_reply result.answer) (state n order.places result.used) cells.new }
{
    let f = first.number;
    let g = second.number;
    let h = third.number;
    let mut index = [0u16; record_index::INDEX];
    if let Err(refusal) = refusing::test_nodes(n, order, cells, used, f, g, h, &mut index) {
        return Outcome {
            used,
            answer: Err(refusal),
        };
    }
    let levels = Levels::turn(n, order);
    let grown = choosing::choose_nodes(levels, 0, f, g, h, cells, &mut index, used);
    conclude(cells, used, grown)
}

// The node of a rule with a flag fixed to a value.
pub fn fix(
    n: u8,
    order: Order,
    cells: &mut [u16],
    used: u16,
    rule: Node,
    i: u16,
    value: u16,
) -> Outcome
    ensures { Fix (state n order.places used) cells.old rule.number i value (made_reply result.answer) (state n order.places result.used) cells.new }
{
    let m = rule.number;
    let mut index = [0u16; record_index::INDEX];
    if let Err(refusal) = refusing::test_fix(n, order, cells, used, m, i, value, &mut index) {
        return Outcome {
            used,
            answer: Err(refusal),
        };
    }
    let levels = Levels::turn(n, order);
    let grown = fixing::fix_node(levels, i, value, 0, m, cells, &mut index, used);
    conclude(cells, used, grown)
}
