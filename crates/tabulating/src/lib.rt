// The recursion of tabulate (document 01, "The store"): the table of a node, filled down the order.
#![tactic(auto)]

ghost use Rattle.std.specs.Prelude.{◌≡◌, take};
ghost use Rattle.rule.specs.Order.{flags};
ghost use Rattle.tabulating.specs.Fill.{Filling, filled};

use apply::branch;
use rule::Order;

// Writes a node's answers into the rows that give the flags before level `at` the same values as the row: the half where the next flag is 0, then the other.
pub fn fill(
    n: u8,
    order: Order,
    at: u8,
    row: u16,
    cells: &[u16],
    used: u16,
    node: u16,
    bytes: &mut [u8],
)
    requires { Filling n order.places at row cells.now used node bytes.old }
    ensures { bytes.new ≡ filled n (take at (flags n order.places)) row cells.now node bytes.old }
{
    if n <= at {
        bytes[row as usize] = node as u8;
        return;
    }
    let flag = order.places[at as usize] as u16;
    let no = bits::set_bit(row, flag, 0);
    let low = branch(cells, flag, 0, node);
    fill(n, order, at + 1, no, cells, used, low, bytes);
    let yes = bits::set_bit(row, flag, 1);
    let high = branch(cells, flag, 1, node);
    fill(n, order, at + 1, yes, cells, used, high, bytes);
}
