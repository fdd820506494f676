// Whether records stand in the one sequence (document 02, request 3) already: then there is nothing to move.
#![tactic(auto)]

ghost use Rattle.std.specs.Prelude.{◌≡◌, ◌+◌, ◌≤◌, ◌<◌};
ghost use Rattle.rule.specs.Order.{flags};
ghost use Rattle.rule.specs.Cells.{room, flag_at};
ghost use Rattle.rule.specs.Sequence.{precedes, in_sequence};
ghost use Rattle.theory.specs.Shape.{Shaped};

use levels::Levels;
use rule::Order;

// Whether record k comes before the next one: by its level, then by its low node, then by its high node.
#[tactic(auto, unfolding(rule::specs::Sequence::precedes, rule::specs::Sequence::rises))]
fn precedes(levels: Levels, cells: &[u16], k: u16) -> bool
    requires { (k + 1 < room cells.now) × (room cells.now < 65536) × (flag_at cells.now k < levels.n)
        × (flag_at cells.now (k + 1) < levels.n) }
    ensures { result ≡ precedes (flags levels.n levels.order.places) cells.now k (k + 1) }
{
    let flag = cells::flag_at(cells, k);
    let next = cells::flag_at(cells, k + 1);
    let low = cells::low_at(cells, k);
    let other = cells::low_at(cells, k + 1);
    levels.level(next) < levels.level(flag)
        || flag == next
            && (low < other
                || low == other && cells::high_at(cells, k) < cells::high_at(cells, k + 1))
}

// Whether each used record comes before the next.
pub fn in_sequence(n: u8, order: Order, cells: &[u16], used: u16) -> bool
    requires { (n ≤ 10) × Shaped n order.places cells.now used × (room cells.now < 65536) }
    ensures { result ≡ in_sequence n order.places cells.now used }
{
    let levels = Levels::turn(n, order);
    (0..used.saturating_sub(1)).all(|k| precedes(levels, cells, k))
}
