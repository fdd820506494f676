ghost use Rattle.std.specs.Prelude.{◌≡◌};
ghost use Rattle.rule.specs.Answers.{packed_reply, test_number};
ghost use Rattle.rule.specs.Calls.{Pack};
ghost use Rattle.rule.specs.Refusals.{refusal};
ghost use Rattle.packing.specs.Lent.{lent_rows};

use rule::{Packed, Refusal};
use searching::search;

// The tests of what pack is given: 1, 2, 3, 5, then 8.
fn test_lent(n: u8, table: &[u8], cells: &[u16], workspace: &[u16]) -> Result<(), Refusal>
    ensures { test_number result ≡ refusal (lent_rows n table.now cells.now workspace.now) }
{
    arguments::test_table(n, table)?;
    if !cells::fit_cells(cells) {
        return Err(Refusal::CellsLength);
    }
    if workspace.len() < stretches::cell_count(n) {
        return Err(Refusal::WorkspaceLength);
    }
    Ok(())
}

// Pack: the packed order, the node count and the root, with the diagram in the cells; or why there is none: 1, 2, 3, 5, 8, then 10, which
// build finds. The workspace is cleared whole once it has been used.
pub fn pack(
    n: u8,
    table: &[u8],
    cells: &mut [u16],
    workspace: &mut [u16],
) -> Result<Packed, Refusal>
    ensures { Pack n table.now cells.old workspace.old (packed_reply result) cells.new workspace.new }
{
    test_lent(n, table, cells, workspace)?;
    let order = search(n, table, workspace);
    workspace.fill(0);
    let drawn = building::build(n, table, order, cells)?;
    Ok(Packed { order, drawn })
}
