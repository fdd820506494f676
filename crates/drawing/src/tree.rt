ghost use Rattle.std.specs.Prelude.{◌≡◌, ◌<◌};
ghost use Rattle.record_index.specs.Index.{Indexed};
ghost use Rattle.drawing.specs.Draw.{Drawing, Draw};

use rule::{Node, Order};
use unique::Grown;

// The end node that gives the answer.
fn end_node(answer: u8) -> u16
    requires { answer < 2 }
    ensures { result ≡ answer }
{
    if answer == 0 {
        return Node::NO.number;
    }
    Node::YES.number
}

// The node of the table's rule with the flags before level `at` fixed as in the row: its two branches, then the node that joins them.
pub fn draw(
    n: u8,
    table: &[u8],
    order: Order,
    at: u8,
    row: u16,
    cells: &mut [u16],
    index: &mut [u16; record_index::INDEX],
    used: u16,
) -> Grown
    requires { Drawing n table.now order.places at row cells.old used × Indexed cells.old used index.old }
    ensures { Draw n table.now order.places at row cells.old used result cells.new
        × Indexed cells.new result.used index.new }
{
    if n <= at {
        return Grown {
            used,
            found: Some(end_node(table[row as usize])),
        };
    }
    let flag = order.places[at as usize] as u16;
    let no = bits::set_bit(row, flag, 0);
    let first = draw(n, table, order, at + 1, no, cells, index, used);
    match first.found {
        None => first,
        Some(low) => {
            let yes = bits::set_bit(row, flag, 1);
            let second = draw(n, table, order, at + 1, yes, cells, index, first.used);
            unique::make_above(cells, index, flag, low, second)
        }
    }
}
