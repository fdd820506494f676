ghost use Rattle.std.specs.Prelude.{◌≡◌, [], ◌∷◌, ◌*◌, ◌≤◌, length};
ghost use Rattle.rule.specs.Refusals.{refusal, result as result_row};
ghost use Rattle.rule.specs.Answers.{test_number, number_reply};
ghost use Rattle.rule.specs.Sheet.{page_bytes, pages_for, sheet, print_rows, Prints};
ghost use Rattle.runs.specs.Run.{Puts};

use paging::{PAGE_BYTES, RECORD_LINES, Sheet};
use rule::{Node, Order, Refusal};

// The pages that so many records take.
fn pages(used: u16) -> u16
    ensures { result ≡ pages_for used }
{
    if used == 0 {
        return 1;
    }
    (used - 1) / RECORD_LINES + 1
}

// Print's own test, of the lent bytes: 10.
fn test_bytes(used: u16, bytes: &[u8]) -> Result<(), Refusal>
    ensures { test_number result ≡ refusal (result_row (pages_for used * page_bytes) (length bytes.now) ∷ []) }
{
    if bytes.len() < pages(used) as usize * PAGE_BYTES {
        return Err(Refusal::NoRoom);
    }
    Ok(())
}

// All tests of print: those of check, then its own.
fn test_print(
    n: u8,
    order: Order,
    cells: &[u16],
    used: u16,
    root: Node,
    bytes: &[u8],
) -> Result<(), Refusal>
    ensures { test_number result ≡ refusal (print_rows n order.places cells.now used root.number bytes.now) }
{
    checking::check(n, order, cells, used, root)?;
    test_bytes(used, bytes)
}

// Writes all pages, which the lent bytes have room for, and hands back their number.
fn put_sheet(bytes: &mut [u8], records: &Sheet) -> u16
    requires { pages_for records.now.used * page_bytes ≤ length bytes.old }
    ensures { (result ≡ pages_for records.now.used) × Puts bytes.old 0 (sheet records.now.cells.now records.now.used) (result * page_bytes) bytes.new }
{
    let count = pages(records.used);
    let mut next = 0;
    for page in 0..count {
        next = records.put_page(bytes, next, page);
    }
    count
}

// Print: the number of pages, with the pages in the first of the lent bytes; or why there are none: 1, 4, 5, 6, 7, then 10.
pub fn print(
    n: u8,
    order: Order,
    cells: &[u16],
    used: u16,
    root: Node,
    bytes: &mut [u8],
) -> Result<u16, Refusal>
    ensures { Prints n order.places cells.now used root.number bytes.old (number_reply result) bytes.new }
{
    test_print(n, order, cells, used, root, bytes)?;
    Ok(put_sheet(bytes, &Sheet { cells, used }))
}
