// A rule that is written into lent bytes that are full of junk.
use crate::loading::MOST_CELLS;
use rule::Refusal;
use words::diagram::{Asked, asked_at};
use words::lent::each_is;
use words::print;
use words::read::{bytes, cells, number};

// What the bytes are lent with.
const JUNK: u8 = 85;

// The longest label that a line may have.
const LABEL: usize = 300;

// A file of so many bytes, and whether those past it are as lent.
fn written(size: usize, bytes: &[u8]) {
    print::text(b"bytes ");
    print::size(size);
    print::text(b" ");
    if bytes.len() < size {
        print::too_long();
        return;
    }
    print::bytes(&bytes[0..size]);
    print::text(b" rest");
    print::kept(each_is(&bytes[size..], &JUNK));
}

fn refused(refusal: Refusal, bytes: &[u8]) {
    print::refused(refusal.number());
    print::kept(each_is(bytes, &JUNK));
}

// The line for a rule that is written: the file's length, 0 where it is refused.
fn write(of: Asked, cells: &[u16], label: &[u8], bytes: &mut [u8]) -> usize {
    bytes.fill(JUNK);
    match writing::write(of.n, of.order, cells, of.used, of.root, label, bytes) {
        Ok(size) => {
            written(size, bytes);
            size
        }
        Err(refusal) => {
            refused(refusal, bytes);
            0
        }
    }
}

// w N ORDER USED ROOT BYTES LABEL CELLS CELL CELL ..
pub fn save(text: &[u8], file: &mut [u8]) -> usize {
    let of = asked_at(text, 2);
    let lent = of.lent;
    let mut label = [0u8; LABEL];
    let word = bytes(text, of.next, &mut label);
    let size = word.value as usize;
    let room = number(text, word.next);
    let length = room.value as usize;
    let mut held = [0u16; MOST_CELLS];
    cells(text, room.next, &mut held);
    if LABEL < size {
        print::too_long();
        return 0;
    }
    if MOST_CELLS < length {
        print::too_long();
        return 0;
    }
    if file.len() < lent {
        print::too_long();
        return 0;
    }
    write(of, &held[0..length], &label[0..size], &mut file[0..lent])
}
