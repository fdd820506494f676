ghost use Rattle.std.specs.Prelude.{◌+◌, ◌*◌, ◌≤◌, ◌<◌, length};
ghost use Rattle.rule.specs.Bits.{below};
ghost use Rattle.rule.specs.Order.{flags};
ghost use Rattle.rule.specs.Cells.{room};
ghost use Rattle.rule.specs.Diagram.{asking};
ghost use Rattle.rule.specs.Listing.{numbers, order_line, flag_line, flag_lines};
ghost use Rattle.runs.specs.Run.{Puts};
ghost use Rattle.report.specs.Report.{most_printed, reported};

use crate::count::{asking, yes_count};
use rule::Order;
use runs::{put_byte, put_line, put_number, put_run};

// The most flags that are listed: for more, pack is lent too short a workspace.
const MOST_FLAGS: usize = 8;

// The most bytes of a blank and a number of 16 bits.
const NUMBER: usize = 6;

// The bytes that a listing takes at most: the lines `flags`, `nodes`, `order`, a `flag` line for each flag, and `yes`.
pub const PRINTED: usize = (5 + NUMBER + 1) * 2
    + (5 + MOST_FLAGS * NUMBER + 1)
    + MOST_FLAGS * (4 + NUMBER * 2 + 1)
    + (3 + NUMBER + 1);

// Writes the flags of an order, each behind a blank.
fn put_places(out: &mut [u8], at: usize, n: u8, order: Order) -> usize
    requires { (n ≤ 10) × (at + n * 6 ≤ length out.old) }
    ensures { Puts out.old at (numbers (flags n order.places)) result out.new × (result ≤ at + n * 6) }
{
    let mut next = at;
    for flag in &order.places[..n as usize] {
        next = put_number(out, next, *flag as u16);
    }
    next
}

// Writes the line of the order.
fn put_order(out: &mut [u8], at: usize, n: u8, order: Order) -> usize
    requires { (n ≤ 10) × (at + (n * 6 + 6) ≤ length out.old) }
    ensures { Puts out.old at (order_line (flags n order.places)) result out.new × (result ≤ at + (n * 6 + 6)) }
{
    let named = put_run(out, at, b"order");
    let placed = put_places(out, named, n, order);
    put_byte(out, placed, b'\n')
}

// Writes the line of a flag.
fn put_flag(out: &mut [u8], at: usize, v: u16, nodes: u16) -> usize
    requires { at + 17 ≤ length out.old }
    ensures { Puts out.old at (flag_line v nodes) result out.new × (result ≤ at + 17) }
{
    let named = put_run(out, at, b"flag");
    let flag = put_number(out, named, v);
    let counted = put_number(out, flag, nodes);
    put_byte(out, counted, b'\n')
}

// Writes the lines of the flags below n.
fn put_flags(out: &mut [u8], at: usize, n: u8, cells: &[u16], used: u16) -> usize
    requires { (used ≤ room cells.now) × (at + n * 17 ≤ length out.old) }
    ensures { Puts out.old at (flag_lines (asking cells.now used) (below n)) result out.new × (result ≤ at + n * 17) }
{
    let mut next = at;
    for v in 0..n as u16 {
        next = put_flag(out, next, v, asking(cells, used, v));
    }
    next
}

// Writes the whole listing of a table, with its packed diagram.
pub fn put_report(
    out: &mut [u8],
    n: u8,
    table: &[u8],
    order: Order,
    cells: &[u16],
    used: u16,
) -> usize
    requires { (n ≤ 8) × (length table.now < 65536) × (used ≤ room cells.now) × (most_printed ≤ length out.old) }
    ensures { Puts out.old 0 (reported n table.now order.places cells.now used) result out.new }
{
    let flags = put_line(out, 0, b"flags", n as u16);
    let nodes = put_line(out, flags, b"nodes", used);
    let ordered = put_order(out, nodes, n, order);
    let asked = put_flags(out, ordered, n, cells, used);
    put_line(out, asked, b"yes", yes_count(table))
}
