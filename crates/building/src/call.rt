ghost use Rattle.rule.specs.Answers.{drawn_reply};
ghost use Rattle.rule.specs.Calls.{Build};
ghost use Rattle.building.specs.Fill.{Fits, Fills};

use drawing::draw;
use rule::{Drawn, Node, Order, Refusal};
use unique::Grown;

// The diagram of a fit table in lent cells, which are left alone where it does not fit them: it is drawn aside first, and put in sequence there.
fn fill(n: u8, table: &[u8], order: Order, cells: &mut [u16]) -> Grown
    requires { Fits n table.now order.places cells.old }
    ensures { Fills n table.now order.places cells.old result cells.new }
{
    let mut held = [0u16; cells::MOST];
    let mut index = [0u16; record_index::INDEX];
    let len = cells.len();
    let grown = draw(n, table, order, 0, 0, &mut held[0..len], &mut index, 0);
    if grown.found.is_some() {
        sequencing::sequence(n, order, &held[0..len], grown.used, cells);
    }
    grown
}

// Build: the node count and the root, with the diagram in the cells; or why there is none: 1, 2, 3, 4, 5, then 10.
pub fn build(n: u8, table: &[u8], order: Order, cells: &mut [u16]) -> Result<Drawn, Refusal>
    ensures { Build n table.now order.places cells.old (drawn_reply result) cells.new }
{
    arguments::test_table(n, table)?;
    if !orders::fit_order(order, n) {
        return Err(Refusal::OrderPlaces);
    }
    if !cells::fit_cells(cells) {
        return Err(Refusal::CellsLength);
    }
    let grown = fill(n, table, order, cells);
    match grown.found {
        None => Err(Refusal::NoRoom),
        Some(number) => Ok(Drawn {
            nodes: grown.used,
            root: Node { number },
        }),
    }
}
