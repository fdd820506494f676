// One call a line.
use crate::draw::drawn;
use crate::lent::{BYTE_JUNK, CELL_JUNK, MOST_BYTES, MOST_CELLS};
use rule::{Node, Order};
use words::lent::each_is;
use words::print;
use words::read::{cells, digits, number, order};

// The low byte of a number that was read: a flag count.
pub fn flags(value: u16) -> u8 {
    (value % 256) as u8
}

// What build answers, and whether a refusal altered the lent cells.
fn built(n: u8, table: &[u8], order: Order, cells: &mut [u16], bytes: &mut [u8]) {
    match drawn(n, table, order, cells, bytes) {
        Ok(drawn) => {
            print::number(b"nodes", drawn.nodes);
            print::number(b" root", drawn.root.number);
        }
        Err(refusal) => {
            print::refused(refusal.number());
            if !each_is(cells, &CELL_JUNK) {
                print::text(b" altered");
            }
        }
    }
}

// b N CELLS TABLE ORDER
pub fn build(text: &[u8], at: usize) {
    let n = number(text, at);
    let lent = number(text, n.next);
    let mut table = [0u8; MOST_BYTES];
    let rows = digits(text, lent.next, &mut table);
    let order = order(text, rows.next);
    let mut cells = [CELL_JUNK; MOST_CELLS];
    let count = rows.value as usize;
    let length = lent.value as usize;
    if MOST_BYTES < count {
        print::too_long();
        return;
    }
    if MOST_CELLS < length {
        print::too_long();
        return;
    }
    let mut bytes = [BYTE_JUNK; MOST_BYTES];
    built(
        flags(n.value),
        &table[0..count],
        order,
        &mut cells[0..length],
        &mut bytes[0..count],
    );
}

// A node of records in use, and the place behind it.
#[derive(Clone, Copy)]
struct Asked {
    n: u8,
    order: Order,
    used: u16,
    node: Node,
    next: usize,
}

// N ORDER USED NODE
fn place(text: &[u8], at: usize) -> Asked {
    let n = number(text, at);
    let places = number(text, n.next);
    let used = number(text, places.next);
    let node = number(text, used.next);
    Asked {
        n: flags(n.value),
        order: order(text, n.next),
        used: used.value,
        node: Node { number: node.value },
        next: node.next,
    }
}

// c N ORDER USED ROOT CELL CELL ..
pub fn check(text: &[u8], at: usize) {
    let of = place(text, at);
    let mut lent = [0u16; MOST_CELLS];
    let length = cells(text, of.next, &mut lent);
    match checking::check(of.n, of.order, &lent[0..length], of.used, of.node) {
        Ok(nodes) => print::number(b"nodes", nodes),
        Err(refusal) => print::refused(refusal.number()),
    }
}

// A walk with a pass rule or without: ROW CELL CELL .. from a place on
fn walked(of: Asked, pass: Option<Node>, text: &[u8], at: usize) {
    let row = number(text, at);
    let mut lent = [0u16; MOST_CELLS];
    let length = cells(text, row.next, &mut lent);
    let said = walking::walk(
        of.n,
        of.order,
        &lent[0..length],
        of.used,
        of.node,
        pass,
        row.value,
    );
    match said {
        Ok(said) => {
            print::number(b"answer", said.answer as u16);
            print::number(b" asked", said.asked);
            print::number(b" number", said.count as u16);
        }
        Err(refusal) => print::refused(refusal.number()),
    }
}

// w N ORDER USED NODE ROW CELL CELL ..
pub fn walk(text: &[u8], at: usize) {
    let of = place(text, at);
    walked(of, None, text, of.next);
}

// g N ORDER USED NODE PASS ROW CELL CELL ..
pub fn walk_under(text: &[u8], at: usize) {
    let of = place(text, at);
    let pass = number(text, of.next);
    walked(of, Some(Node { number: pass.value }), text, pass.next);
}

// t N ORDER USED NODE BYTES CELL CELL ..
pub fn tabulate(text: &[u8], at: usize) {
    let of = place(text, at);
    let bytes = number(text, of.next);
    let mut lent = [0u16; MOST_CELLS];
    let length = cells(text, bytes.next, &mut lent);
    let mut rows = [BYTE_JUNK; MOST_BYTES];
    let count = bytes.value as usize;
    if MOST_BYTES < count {
        print::too_long();
        return;
    }
    table(of, &lent[0..length], &mut rows[0..count]);
}

// The answer of tabulate, and the lent bytes after it.
fn table(of: Asked, cells: &[u16], bytes: &mut [u8]) {
    match walking::tabulate(of.n, of.order, cells, of.used, of.node, bytes) {
        Ok(()) => print::text(b"rows"),
        Err(refusal) => print::refused(refusal.number()),
    }
    print::text(b" ");
    print::rows(bytes);
}
