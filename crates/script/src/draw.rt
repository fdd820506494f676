// A table drawn under an order, and held against what check, tabulate and walk say of it.
ghost use Rattle.std.specs.Prelude.{◌<◌};

use crate::lent::{BYTE_JUNK, CELL_JUNK, MOST_BYTES};
use parsing::flags_of;
use rule::{Drawn, Node, Order, Refusal, Said};
use words::print;
use words::read::{digits, order};

// How many used records ask a flag.
fn asking(cells: &[u16], used: u16, flag: u16) -> u16 {
    let mut count: u16 = 0;
    for k in 0..used {
        if (k as usize) < cells::room(cells) && cells::flag_at(cells, k) == flag {
            count = count.saturating_add(1);
        }
    }
    count
}

// Whether the diagram has so many nodes and tabulates to the table, by way of lent bytes.
pub fn agrees(
    n: u8,
    table: &[u8],
    order: Order,
    cells: &[u16],
    used: u16,
    root: Node,
    bytes: &mut [u8],
) -> bool {
    checking::check(n, order, cells, used, root) == Ok(used)
        && walking::tabulate(n, order, cells, used, root, bytes).is_ok()
        && *bytes == *table
}

// What a walk says of a row: its answer, or 100 and the refusal's number.
fn said(n: u8, order: Order, cells: &[u16], used: u16, root: Node, row: u16) -> u64 {
    match walking::walk(n, order, cells, used, root, None, row) {
        Ok(said) => u64::from(said.answer),
        Err(refusal) => 100 + u64::from(refusal.number()),
    }
}

// Whether each row's walk answers what the table has, and the row after the last is refused under 9.
fn walks(n: u8, table: &[u8], order: Order, cells: &[u16], used: u16, root: Node) -> bool {
    for row in 0..2048 {
        let found = said(n, order, cells, used, root, row);
        let at = row as usize;
        if table.len() <= at {
            return found == 109;
        }
        if found != u64::from(table[at]) {
            return false;
        }
    }
    true
}

// The sum so far 31 times, and with it a number and 7, modulo 65,521.
fn with(sum: u64, number: u64) -> u64
    requires { (sum < 65521) × (number < 1000000) }
    ensures { result < 65521 }
{
    (sum * 31 + number + 7) % 65521
}

// The sum with the set of the flags that a walk asked, and 1,024 times their number.
fn with_walk(sum: u64, said: Result<Said, Refusal>) -> u64
    requires { sum < 65521 }
    ensures { result < 65521 }
{
    match said {
        Ok(said) => with(sum, said.asked as u64 + said.count as u64 * 1024),
        Err(_) => sum,
    }
}

// This sum over the walks of so many rows.
fn asked_sum(n: u8, order: Order, cells: &[u16], used: u16, root: Node, rows: usize) -> u64
    ensures { result < 65521 }
{
    let mut sum: u64 = 0;
    for row in 0..rows.min(2048) as u16 {
        let said = walking::walk(n, order, cells, used, root, None, row);
        sum = with_walk(sum, said);
    }
    sum
}

// A sum over cells.
fn cell_sum(cells: &[u16]) -> u64
    ensures { result < 65521 }
{
    let mut sum: u64 = 0;
    for cell in cells {
        sum = with(sum, u64::from(*cell));
    }
    sum
}

// The used cells; from seven flags on a sum over them.
pub fn used_cells(n: u8, cells: &[u16], used: u16) {
    let end = used as usize * cells::WIDTH;
    if cells.len() < end {
        print::too_long();
        return;
    }
    if n < 7 {
        print::text(b" cells");
        print::numbers(&cells[0..end]);
        return;
    }
    print::number(b" sum", cell_sum(&cells[0..end]) as u16);
}

pub fn flag_counts(n: u8, cells: &[u16], used: u16) {
    print::text(b" flags");
    for flag in 0..u16::from(n) {
        print::number(b"", asking(cells, used, flag));
    }
}

// The table drawn in lent cells, with lent bytes of its length to tabulate it in. Says where the other calls disagree.
pub fn drawn(
    n: u8,
    table: &[u8],
    order: Order,
    cells: &mut [u16],
    bytes: &mut [u8],
) -> Result<Drawn, Refusal> {
    let drawn = building::build(n, table, order, cells)?;
    if !agrees(n, table, order, cells, drawn.nodes, drawn.root, bytes) {
        print::text(b"disagrees ");
    }
    if !walks(n, table, order, cells, drawn.nodes, drawn.root) {
        print::text(b"walks otherwise ");
    }
    Ok(drawn)
}

// d TABLE ORDER
pub fn draw(text: &[u8], at: usize) {
    let mut table = [0u8; MOST_BYTES];
    let rows = digits(text, at, &mut table);
    let order = order(text, rows.next);
    let count = rows.value as usize;
    if MOST_BYTES < count {
        print::too_long();
        return;
    }
    let n = flags_of(count);
    let mut cells = [CELL_JUNK; cells::MOST];
    let mut bytes = [BYTE_JUNK; MOST_BYTES];
    match drawn(n, &table[0..count], order, &mut cells, &mut bytes[0..count]) {
        Err(refusal) => print::refused(refusal.number()),
        Ok(Drawn { nodes, root }) => {
            print::number(b"nodes", nodes);
            flag_counts(n, &cells, nodes);
            let sum = asked_sum(n, order, &cells, nodes, root, count);
            print::number(b" walks", sum as u16);
            used_cells(n, &cells, nodes);
        }
    }
}
