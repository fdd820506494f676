// The tests of the calls that add no record.
ghost use Rattle.std.specs.Prelude.{◌≡◌};
ghost use Rattle.rule.specs.Answers.{test_number};
ghost use Rattle.rule.specs.Refusals.{refusal, open_rows, constant_rows};

use rule::{Order, Refusal};

// Open's: 1, 4, then 5.
pub fn test_open(n: u8, order: Order, cells: &[u16]) -> Result<(), Refusal>
    ensures { test_number result ≡ refusal (open_rows n order.places cells.now) }
{
    orders::test_order(n, order)?;
    if !cells::fit_cells(cells) {
        return Err(Refusal::CellsLength);
    }
    Ok(())
}

// Constant's: 1, 4, 5, 6, then 9.
pub fn test_constant(
    n: u8,
    order: Order,
    cells: &[u16],
    used: u16,
    value: u16,
) -> Result<(), Refusal>
    ensures { test_number result ≡ refusal (constant_rows n order.places cells.now used value) }
{
    let mut index = [0u16; record_index::INDEX];
    checking::test_records(n, order, cells, used, &mut index)?;
    if 1 < value {
        return Err(Refusal::Argument);
    }
    Ok(())
}
