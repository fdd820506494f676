// A file that is read, and its label, with lent cells that are full of junk.
use rule::{Loaded, Refusal};
use words::lent::each_is;
use words::print;

// The cells that are lent at most: a record more than the paper allows.
pub const MOST_CELLS: usize = cells::MOST + cells::WIDTH;

// What they are lent with.
const JUNK: u16 = 7;

// And whether there is no label, and the cells are as they were lent.
fn refused(refusal: Refusal, label: &[u8], cells: &[u16]) {
    print::refused(refusal.number());
    print::kept(label.is_empty() && each_is(cells, &JUNK));
}

// The cells of so many records, and whether the others are 0.
fn records(count: u16, cells: &[u16]) {
    let end = count as usize * cells::WIDTH;
    print::text(b" cells");
    if cells.len() < end {
        print::too_long();
        return;
    }
    print::numbers(&cells[0..end]);
    if each_is(&cells[end..], &0) {
        print::text(b" rest 0");
    } else {
        print::text(b" rest altered");
    }
}

fn accepted(rule: Loaded, label: &[u8], cells: &[u16]) {
    print::number(b"n", rule.n as u16);
    print::text(b" order ");
    print::rows(&rule.order.places);
    print::number(b" records", rule.records);
    print::number(b" root", rule.root.number);
    print::text(b" label ");
    print::bytes(label);
    records(rule.records, cells);
}

// The line for a file that is read into lent cells.
fn read(file: &[u8], cells: &mut [u16]) {
    let found = reading::read(file, cells);
    let label = reading::label(file, cells);
    match found {
        Ok(rule) => accepted(rule, label, cells),
        Err(refusal) => refused(refusal, label, cells),
    }
    print::line_end();
}

// The line for a file that is read into so many cells.
pub fn load(file: &[u8], lent: usize) {
    let mut cells = [JUNK; MOST_CELLS];
    if MOST_CELLS < lent {
        print::too_long();
        print::line_end();
        return;
    }
    read(file, &mut cells[0..lent]);
}
