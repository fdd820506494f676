// The tests of flag, join and fix, all but 10. (Choose has those of three nodes.) Where all pass, the used records are entered in the index.
ghost use Rattle.std.specs.Prelude.{◌≡◌};
ghost use Rattle.rule.specs.Results.{flag, join, fix};
ghost use Rattle.rule.specs.Answers.{test_number};
ghost use Rattle.record_index.specs.Index.{empty_index};
ghost use Rattle.refusing.specs.Tested.{tested_rows, Tested};

use crate::code::is_operator;
use crate::nodes::test_nodes;
use rule::{Order, Refusal};

// Flag's: 1, 4, 5, 6, then 9.
pub fn test_flag(
    n: u8,
    order: Order,
    cells: &[u16],
    used: u16,
    i: u16,
    index: &mut [u16; record_index::INDEX],
) -> Result<(), Refusal>
    requires { index.old ≡ empty_index }
    ensures { Tested (tested_rows n order.places cells.now used (flag i)) cells.now used (test_number result) index.new }
{
    checking::test_records(n, order, cells, used, index)?;
    if n as u16 <= i {
        return Err(Refusal::Argument);
    }
    Ok(())
}

// Join's: 1, 4, 5, 6, 7, then 9.
pub fn test_join(
    n: u8,
    order: Order,
    cells: &[u16],
    used: u16,
    code: u8,
    f: u16,
    g: u16,
    index: &mut [u16; record_index::INDEX],
) -> Result<(), Refusal>
    requires { index.old ≡ empty_index }
    ensures { Tested (tested_rows n order.places cells.now used (join code f g)) cells.now used (test_number result) index.new }
{
    test_nodes(n, order, cells, used, f, g, g, index)?;
    if !is_operator(code) {
        return Err(Refusal::Argument);
    }
    Ok(())
}

// Fix's: 1, 4, 5, 6, 7, then 9.
pub fn test_fix(
    n: u8,
    order: Order,
    cells: &[u16],
    used: u16,
    m: u16,
    i: u16,
    value: u16,
    index: &mut [u16; record_index::INDEX],
) -> Result<(), Refusal>
    requires { index.old ≡ empty_index }
    ensures { Tested (tested_rows n order.places cells.now used (fix m i value)) cells.now used (test_number result) index.new }
{
    test_nodes(n, order, cells, used, m, m, m, index)?;
    if n as u16 <= i {
        return Err(Refusal::Argument);
    }
    if 1 < value {
        return Err(Refusal::Argument);
    }
    Ok(())
}
