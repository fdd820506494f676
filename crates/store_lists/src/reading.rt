// The lines of standard input.
use crate::calling::call;
use sessions::{Session, begin, end, fresh};
use words::{lines, print};

// The cells that a list is lent at most: a record more than the paper allows.
const MOST_CELLS: usize = cells::MOST + cells::WIDTH;

// One line, and what it prints.
fn line(s: Session, text: &[u8], cells: &mut [u16]) -> Session {
    let Some(&command) = text.first() else {
        return s;
    };
    if command == b'l' {
        return begin(text, cells);
    }
    let lent = s.lent;
    if cells.len() < lent {
        print::too_long();
        print::line_end();
        return s;
    }
    if command == b'e' {
        end(s, &cells[0..lent]);
        return s;
    }
    call(s, text, &mut cells[0..lent], command)
}

fn each_line(buffer: &mut [u8], cells: &mut [u16]) {
    let mut s = fresh(0);
    lines::each(buffer, |text| s = line(s, text, cells));
}

// Every line of standard input.
pub fn run() {
    let mut buffer = io::large_buffer();
    let mut cells = [0u16; MOST_CELLS];
    each_line(&mut buffer, &mut cells);
}
