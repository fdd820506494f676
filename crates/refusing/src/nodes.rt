ghost use Rattle.std.specs.Prelude.{◌≡◌, [], ◌∷◌};
ghost use Rattle.record_index.specs.Index.{empty_index};
ghost use Rattle.rule.specs.Answers.{test_number};
ghost use Rattle.refusing.specs.Tested.{node_rows, Tested};

use rule::{Order, Refusal};

// The tests of lent cells and three nodes: 1, 4, 5, 6, then 7. A call with fewer nodes names one of them again.
// Where all pass, the used records are entered in the index.
pub fn test_nodes(
    n: u8,
    order: Order,
    cells: &[u16],
    used: u16,
    f: u16,
    g: u16,
    h: u16,
    index: &mut [u16; record_index::INDEX],
) -> Result<(), Refusal>
    requires { index.old ≡ empty_index }
    ensures { Tested (node_rows n order.places cells.now used (f ∷ g ∷ h ∷ [])) cells.now used (test_number result) index.new }
{
    checking::test_records(n, order, cells, used, index)?;
    let last = used + 1;
    if last < f {
        return Err(Refusal::NodeNumber);
    }
    if last < g {
        return Err(Refusal::NodeNumber);
    }
    if last < h {
        return Err(Refusal::NodeNumber);
    }
    Ok(())
}
