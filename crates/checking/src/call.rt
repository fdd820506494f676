ghost use Rattle.std.specs.Prelude.{◌≡◌, [], ◌∷◌, ◌+◌, ◌≤◌};
ghost use Rattle.rule.specs.Cells.{most_records, room};
ghost use Rattle.rule.specs.Diagram.{diagram};
ghost use Rattle.rule.specs.Refusals.{refusal, flag_count, order_places, cells as lent_cells, records};
ghost use Rattle.rule.specs.Answers.{test_number, number_reply};
ghost use Rattle.rule.specs.Calls.{Check};
ghost use Rattle.record_index.specs.Index.{empty_index, Indexed};

use reach::all_reached;
use rule::{Node, Order, Refusal};
use soundness::sound;

// The tests of lent cells with so many used records: 1, 4, 5, then 6.
// Where all pass, the used records are entered in the index.
pub fn test_records(
    n: u8,
    order: Order,
    cells: &[u16],
    used: u16,
    index: &mut [u16; record_index::INDEX],
) -> Result<(), Refusal>
    requires { index.old ≡ empty_index }
    ensures { (test_number result
        ≡ refusal (flag_count n ∷ order_places n order.places ∷ lent_cells cells.now ∷ records n order.places cells.now used ∷ []))
        × (test_number result ≡ 0 → Indexed cells.now used index.new) }
{
    orders::test_order(n, order)?;
    if !cells::fit_cells(cells) {
        return Err(Refusal::CellsLength);
    }
    if !sound(n, order, cells, used, index) {
        return Err(Refusal::Records);
    }
    Ok(())
}

// Check: the node count of a diagram, or why it is none: 1, 4, 5, 6, then 7.
pub fn check(n: u8, order: Order, cells: &[u16], used: u16, root: Node) -> Result<u16, Refusal>
    ensures { Check n order.places cells.now used root.number (number_reply result) }
{
    let mut index = [0u16; record_index::INDEX];
    test_records(n, order, cells, used, &mut index)?;
    let node = root.number;
    if used + 1 < node {
        return Err(Refusal::NodeNumber);
    }
    if all_reached(cells, used, node) {
        Ok(used)
    } else {
        Err(Refusal::Records)
    }
}

// Whether the cells are a diagram of so many used records, from a root up to used + 1.
pub fn is_diagram(n: u8, order: Order, cells: &[u16], used: u16, root: u16) -> bool
    requires { (n ≤ 10) × (room cells.now ≤ most_records) × (root ≤ used + 1) }
    ensures { result ≡ diagram n order.places cells.now used root }
{
    let mut index = [0u16; record_index::INDEX];
    sound(n, order, cells, used, &mut index) && all_reached(cells, used, root)
}
