// The lines of standard input.
use crate::changing::{added, append, cut, set, values};
use crate::loading::load;
use crate::saving::save;
use words::read::{byte, bytes, number};
use words::{lines, print};

// The longest file that a line may have: with 1,024 records it has 5,166 bytes.
const LONGEST: usize = 6000;

// r CELLS, v CELLS PLACE, e CELLS ADD, s CELLS BYTE, c CELLS
fn read(command: u8, file: &mut [u8], lent: usize, value: u16) {
    match command {
        b'r' => load(file, lent),
        b'v' => values(file, lent, value as usize),
        b'e' => added(file, lent, byte(value)),
        b's' => set(file, lent, byte(value)),
        b'c' => cut(file, lent),
        _ => {
            print::unknown();
            print::line_end();
        }
    }
}

// A line that reads a file of so many bytes.
fn call(text: &[u8], command: u8, file: &mut [u8], size: usize) {
    let lent = number(text, 2);
    let value = number(text, lent.next);
    if file.len() < size {
        print::too_long();
        print::line_end();
        return;
    }
    if command == b'a' {
        append(file, size, lent.value as usize, byte(value.value));
        return;
    }
    read(
        command,
        &mut file[0..size],
        lent.value as usize,
        value.value,
    );
}

// One line, what it prints, and the length of the file that it leaves.
fn line(text: &[u8], file: &mut [u8], size: usize) -> usize {
    if text.len() == 0 {
        return size;
    }
    let command = text[0];
    match command {
        b'f' => {
            let word = bytes(text, 2, file);
            word.value as usize
        }
        b'w' => {
            let written = save(text, file);
            print::line_end();
            written
        }
        _ => {
            call(text, command, file, size);
            size
        }
    }
}

// Every line of standard input.
pub fn run() {
    let mut buffer = io::large_buffer();
    let mut file = [0u8; LONGEST];
    let mut size = 0;
    lines::each(&mut buffer, |text| size = line(text, &mut file, size));
}
