// A table packed in lent cells and a lent workspace that are full of junk, and what was lent looked at afterwards.
use crate::draw::{agrees, flag_counts, used_cells};
use crate::lent::{BYTE_JUNK, CELL_JUNK, MOST_BYTES, MOST_CELLS};
use crate::one::flags;
use parsing::flags_of;
use rule::{Order, Packed};
use words::lent::each_is;
use words::print;
use words::read::{digits, number};

// The most workspace that a line lends: 3^10 cells, and three to spare.
const WORKSPACE: usize = 59052;

// What a workspace is lent with.
const WORKSPACE_JUNK: u16 = 5;

// The first n places of an order.
fn places(n: u8, order: Order) {
    print::text(b" order");
    for place in order.places.iter().take(n as usize) {
        print::number(b"", u16::from(*place));
    }
}

// Says where check and tabulate disagree with what was packed, by way of lent bytes.
fn compare(n: u8, table: &[u8], packed: Packed, cells: &[u16], bytes: &mut [u8]) {
    let Packed { order, drawn } = packed;
    if !agrees(n, table, order, cells, drawn.nodes, drawn.root, bytes) {
        print::text(b" disagrees");
    }
}

// p TABLE
pub fn pack(text: &[u8], at: usize) {
    let mut table = [0u8; MOST_BYTES];
    let rows = digits(text, at, &mut table);
    let count = rows.value as usize;
    if MOST_BYTES < count {
        print::too_long();
        return;
    }
    let n = flags_of(count);
    let mut cells = [CELL_JUNK; cells::MOST];
    let mut workspace = [WORKSPACE_JUNK; WORKSPACE];
    match packing::pack(n, &table[0..count], &mut cells, &mut workspace) {
        Err(refusal) => print::refused(refusal.number()),
        Ok(packed) => {
            let nodes = packed.drawn.nodes;
            print::number(b"nodes", nodes);
            places(n, packed.order);
            flag_counts(n, &cells, nodes);
            used_cells(n, &cells, nodes);
            let mut bytes = [BYTE_JUNK; MOST_BYTES];
            compare(n, &table[0..count], packed, &cells, &mut bytes[0..count]);
        }
    }
    if !each_is(&workspace, &0) {
        print::text(b" workspace left");
    }
}

// What a workspace has after a call: the junk that it was lent with, 0 in each cell, or neither.
fn workspace_after(workspace: &[u16]) {
    if each_is(workspace, &WORKSPACE_JUNK) {
        print::text(b" workspace kept");
    } else if each_is(workspace, &0) {
        print::text(b" workspace 0");
    } else {
        print::text(b" workspace mixed");
    }
}

// The answer of pack, and what was lent after it.
fn lent(n: u8, table: &[u8], cells: &mut [u16], workspace: &mut [u16], bytes: &mut [u8]) {
    match packing::pack(n, table, cells, workspace) {
        Ok(packed) => {
            print::number(b"nodes", packed.drawn.nodes);
            workspace_after(workspace);
            compare(n, table, packed, cells, bytes);
        }
        Err(refusal) => {
            print::refused(refusal.number());
            workspace_after(workspace);
            if each_is(cells, &CELL_JUNK) {
                print::text(b" cells kept");
            } else {
                print::text(b" cells altered");
            }
        }
    }
}

// q N CELLS WORKSPACE TABLE
pub fn pack_lent(text: &[u8], at: usize) {
    let n = number(text, at);
    let lent_cells = number(text, n.next);
    let lent_workspace = number(text, lent_cells.next);
    let mut table = [0u8; MOST_BYTES];
    let rows = digits(text, lent_workspace.next, &mut table);
    let count = rows.value as usize;
    let length = lent_cells.value as usize;
    let width = lent_workspace.value as usize;
    if MOST_BYTES < count {
        print::too_long();
        return;
    }
    if MOST_CELLS < length {
        print::too_long();
        return;
    }
    if WORKSPACE < width {
        print::too_long();
        return;
    }
    let mut cells = [CELL_JUNK; MOST_CELLS];
    let mut workspace = [WORKSPACE_JUNK; WORKSPACE];
    let mut bytes = [BYTE_JUNK; MOST_BYTES];
    lent(
        flags(n.value),
        &table[0..count],
        &mut cells[0..length],
        &mut workspace[0..width],
        &mut bytes[0..count],
    );
}
