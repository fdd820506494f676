ghost use Rattle.std.specs.Prelude.{◌≡◌, ◌≤◌, length};
ghost use Rattle.rule.specs.Refusals.{refusal};
ghost use Rattle.rule.specs.Answers.{test_number, number_reply};
ghost use Rattle.rule.specs.Files.{longest_label, bit_if, map_of, file_of, write_rows, Writes};
ghost use Rattle.runs.specs.Run.{Puts};
ghost use Rattle.writing.specs.Write.{size_of, own_rows, Writable};

use arguments::all_printable;
use encoding::{put_counted, put_flags, put_label};
use rule::{
    COUNT_SIZE, FLAGS_BIT, LABEL_BIT, LONGEST_LABEL, Node, ORDER_BIT, Order, RECORD_SIZE,
    RECORDS_BIT, Refusal, YES_BIT,
};
use runs::put_byte;

// What the map's bits count for: those that the writer always sets, and the others.
const ALWAYS: usize = (1 << FLAGS_BIT) + (1 << ORDER_BIT);

const LABELLED: usize = 1 << LABEL_BIT;

const RECORDED: usize = 1 << RECORDS_BIT;

const YES: usize = 1 << YES_BIT;

// x where there is something, else 0.
fn if_some(size: usize, x: usize) -> usize
    ensures { result ≡ bit_if size x }
{
    if size == 0 {
        return 0;
    }
    x
}

// The bit map, by a label's length, a record count and a root.
fn map_byte(size: usize, used: u16, root: u16) -> u8
    ensures { result ≡ map_of size used root }
{
    let map = ALWAYS + if_some(size, LABELLED);
    if used == 0 {
        return (map + if_some(root as usize, YES)) as u8;
    }
    (map + RECORDED) as u8
}

// The length of a file of n flags, by its label's length and its record count.
fn file_size(n: u8, size: usize, used: u16) -> usize
    requires { size ≤ longest_label }
    ensures { result ≡ size_of n size used }
{
    let count = used as usize;
    2 + n as usize + if_some(size, size + 1) + if_some(count, count * RECORD_SIZE + COUNT_SIZE)
}

// The writer's tests of a label and of the lent bytes: 13, then 10.
fn test_own(n: u8, used: u16, label: &[u8], bytes: &[u8]) -> Result<(), Refusal>
    ensures { test_number result ≡ refusal (own_rows (size_of n (length label.now) used) label.now bytes.now) }
{
    if LONGEST_LABEL < label.len() {
        return Err(Refusal::FileLabel);
    }
    if !all_printable(label) {
        return Err(Refusal::FileLabel);
    }
    if bytes.len() < file_size(n, label.len(), used) {
        return Err(Refusal::NoRoom);
    }
    Ok(())
}

// All tests of the writer: those of check, then its own.
fn test_write(
    n: u8,
    order: Order,
    cells: &[u16],
    used: u16,
    root: Node,
    label: &[u8],
    bytes: &[u8],
) -> Result<(), Refusal>
    ensures { test_number result ≡ refusal (write_rows n order.places cells.now used root.number label.now bytes.now) }
{
    checking::check(n, order, cells, used, root)?;
    test_own(n, used, label, bytes)
}

// Writes a file that the lent bytes have room for, and hands back its length.
fn put_file(
    n: u8,
    order: Order,
    cells: &[u16],
    used: u16,
    root: u16,
    label: &[u8],
    bytes: &mut [u8],
) -> usize
    requires { Writable n order.places cells.now used root label.now bytes.old }
    ensures { Puts bytes.old 0 (file_of n order.places cells.now used root label.now) result bytes.new }
{
    let map = put_byte(bytes, 0, map_byte(label.len(), used, root));
    let flags = put_byte(bytes, map, n);
    let named = put_flags(bytes, flags, n, order);
    let labelled = put_label(bytes, named, label);
    put_counted(bytes, labelled, cells, used)
}

// Write: the file's length, with the file in the first of the lent bytes; or why there is none: 1, 4, 5, 6, 7, 13, then 10.
pub fn write(
    n: u8,
    order: Order,
    cells: &[u16],
    used: u16,
    root: Node,
    label: &[u8],
    bytes: &mut [u8],
) -> Result<usize, Refusal>
    ensures { Writes n order.places cells.now used root.number label.now bytes.old (number_reply result) bytes.new }
{
    test_write(n, order, cells, used, root, label, bytes)?;
    Ok(put_file(n, order, cells, used, root.number, label, bytes))
}
