// The end of a list: the rules handed back, and what all used records stand for.
ghost use Rattle.std.specs.Prelude.{◌≤◌, ◌<◌};
ghost use Rattle.rule.specs.Listing.{most_rows};

use crate::session::{CALLS, Made, Session};
use rule::Node;
use store::Store;
use words::print;

// The rows of a table of ten flags.
pub const MOST_ROWS: usize = 1024;

// What sums are taken by, the largest prime of 16 bits.
const MODULUS: u64 = 65521;

// The rows of a table of so many flags.
fn row_count(n: u8) -> usize
    ensures { result ≤ most_rows }
{
    arguments::row_count(n.min(10))
}

// A sum with 31r + 7 added where row r says yes.
fn with_row(sum: u64, r: u64, answer: u8) -> u64
    requires { sum < 65521 }
    ensures { result < 65521 }
{
    if answer == 1 {
        (sum + r % MODULUS * 31 + 7) % MODULUS
    } else {
        sum
    }
}

// The sum over the rows of a table.
fn rows_sum(table: &[u8]) -> u64
    ensures { result < 65521 }
{
    let mut sum: u64 = 0;
    for (r, answer) in table.iter().enumerate() {
        sum = with_row(sum, r as u64, *answer);
    }
    sum
}

// The table of a node's rule, in the first of lent bytes; a refusal is printed.
fn table<'a>(
    store: Store,
    cells: &[u16],
    node: u16,
    lent: &'a mut [u8; MOST_ROWS],
) -> Option<&'a [u8]> {
    let rows = &mut lent[..row_count(store.n)];
    match store.tabulate(cells, Node { number: node }, rows).answer {
        Ok(()) => Some(rows),
        Err(refusal) => {
            print::refused(refusal.number());
            None
        }
    }
}

fn node_sum(store: Store, cells: &[u16], node: u16) -> u64
    ensures { result < 65521 }
{
    let mut lent = [9u8; MOST_ROWS];
    match table(store, cells, node, &mut lent) {
        Some(rows) => rows_sum(rows),
        None => 0,
    }
}

// The sum of the rules of all used records whose nodes have a number.
fn sum(store: Store, cells: &[u16]) -> u64
    ensures { result < 65521 }
{
    let mut sum: u64 = 0;
    for k in 0..store.used.min(65534) {
        sum = (sum + node_sum(store, cells, k + 2)) % MODULUS;
    }
    sum
}

fn print_table(store: Store, cells: &[u16], node: u16) {
    let mut lent = [9u8; MOST_ROWS];
    if let Some(rows) = table(store, cells, node, &mut lent) {
        print::rows(rows);
    }
}

// The line of a node that a call handed back.
fn node_line(store: Store, cells: &[u16], made: Made) {
    print::text(b"node ");
    if made.is_inner {
        print::text(b"inner");
    } else {
        print::value(made.node);
    }
    print::text(b" ");
    print_table(store, cells, made.node);
    print::line_end();
}

// Each node handed back, once, where the first call that did so stands.
fn node_lines(s: Session, cells: &[u16]) {
    for call in 0..CALLS {
        if let Some(made) = s.made[call] {
            if s.first(made.node) == Some(call) {
                node_line(s.store, cells, made);
            }
        }
    }
}

// end
pub fn end(s: Session, cells: &[u16]) {
    print::text(b"end");
    s.print_used();
    if !s.is_open {
        return;
    }
    node_lines(s, cells);
    let total = sum(s.store, cells);
    print::number(b"sum", total as u16);
    print::line_end();
}
