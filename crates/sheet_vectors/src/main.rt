// The second program's diagrams, printed by the engine: a line a call. Words stand one blank apart.
//
//     s N ORDER USED ROOT BYTES CELLS CELL CELL ..
//                       print into so many lent bytes that have 85 in each; lent cells that are not written here are 0
//
// ORDER is two digits to a byte, 0 to 9 and a to f, or `-` for none; what is not written of its ten places is 0.
// tests/second/sheet.rs says what is printed, and the second program what it must be.
#![tactic(auto)]

use rule::Refusal;
use words::diagram::{Asked, asked_at};
use words::lent::each_is;
use words::read::{cells, number};
use words::{lines, print};

// What the bytes are lent with.
const JUNK: u8 = 85;

// The bytes of a page.
const PAGE: usize = 60 * 21;

// The cells that are lent at most: a record more than the paper allows.
const MOST_CELLS: usize = cells::MOST + cells::WIDTH;

// The bytes that are lent at most.
const MOST_BYTES: usize = 8000;

// So many pages, and whether the bytes past them are as lent.
fn printed(pages: u16, bytes: &[u8]) {
    let end = pages as usize * PAGE;
    print::number(b"pages", pages);
    if bytes.len() < end {
        print::too_long();
        print::line_end();
        return;
    }
    print::text(b" rest");
    print::kept(each_is(&bytes[end..], &JUNK));
    print::line_end();
    print::text(&bytes[0..end]);
}

fn refused(refusal: Refusal, bytes: &[u8]) {
    print::refused(refusal.number());
    print::kept(each_is(bytes, &JUNK));
    print::line_end();
}

// A diagram that is printed into lent bytes that are full of junk.
fn sheet(of: Asked, cells: &[u16], bytes: &mut [u8]) {
    bytes.fill(JUNK);
    match printing::print(of.n, of.order, cells, of.used, of.root, bytes) {
        Ok(pages) => printed(pages, bytes),
        Err(refusal) => refused(refusal, bytes),
    }
}

// s N ORDER USED ROOT BYTES CELLS CELL CELL ..
fn call(text: &[u8]) {
    let of = asked_at(text, 2);
    let lent = of.lent;
    let room = number(text, of.next);
    let length = room.value as usize;
    let mut held = [0u16; MOST_CELLS];
    cells(text, room.next, &mut held);
    let mut bytes = [0u8; MOST_BYTES];
    if MOST_CELLS < length {
        print::too_long();
        print::line_end();
        return;
    }
    if MOST_BYTES < lent {
        print::too_long();
        print::line_end();
        return;
    }
    sheet(of, &held[0..length], &mut bytes[0..lent]);
}

// Every line of standard input.
fn main() {
    let mut buffer = io::large_buffer();
    lines::each(&mut buffer, call);
}
