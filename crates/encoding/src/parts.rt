ghost use Rattle.std.specs.Prelude.{ℕ, ◌+◌, ◌*◌, ◌≤◌, ◌<◌, length, take};
ghost use Rattle.rule.specs.Cells.{room, flag_at, records_in};
ghost use Rattle.rule.specs.Files.{record_size, two, in_bytes, record_bytes};
ghost use Rattle.runs.specs.Run.{Puts};
ghost use Rattle.rule.specs.Cells.{record_in};

use rule::Order;
use runs::{put_byte, put_run};

// Writes a number in two bytes, low byte first.
pub fn put_two(bytes: &mut [u8], at: usize, x: u16) -> usize
    requires { at + 2 ≤ length bytes.old }
    ensures { Puts bytes.old at (two x) result bytes.new }
{
    put_run(bytes, at, &x.to_le_bytes())
}

// Writes the flags of an order.
pub fn put_flags(bytes: &mut [u8], at: usize, n: u8, order: Order) -> usize
    requires { (n ≤ 10) × (at + n ≤ length bytes.old) }
    ensures { Puts bytes.old at (take n order.places) result bytes.new }
{
    let places = order.places;
    let end = n as usize;
    put_run(bytes, at, &places[0..end])
}

// Writes record k.
fn put_record(bytes: &mut [u8], at: usize, cells: &[u16], k: u16) -> usize
    requires { (k < room cells.now) × (flag_at cells.now k < 256) × (at + record_size ≤ length bytes.old) }
    ensures { Puts bytes.old at (in_bytes (record_in cells.now k)) result bytes.new }
{
    let flag = cells::flag_at(cells, k) as u8;
    let low = put_byte(bytes, at, flag);
    let high = put_two(bytes, low, cells::low_at(cells, k));
    put_two(bytes, high, cells::high_at(cells, k))
}

// Writes the used records.
pub fn put_records(bytes: &mut [u8], at: usize, cells: &[u16], used: u16) -> usize
    requires { (used ≤ room cells.now) × ((k : ℕ) → k < used → flag_at cells.now k < 256) × (at + used * record_size ≤ length bytes.old) }
    ensures { Puts bytes.old at (record_bytes (records_in cells.now used)) result bytes.new }
{
    let mut next = at;
    for k in 0..used {
        next = put_record(bytes, next, cells, k);
    }
    next
}
