// A file with one byte changed, cut, or one byte longer: a line for each. The file is left as it was.
use crate::loading::load;

// The file with a byte at a place.
fn with(file: &mut [u8], place: usize, byte: u8, lent: usize) {
    if place < file.len() {
        let before = file[place];
        file[place] = byte;
        load(file, lent);
        file[place] = before;
    }
}

// v CELLS PLACE
pub fn values(file: &mut [u8], lent: usize, place: usize) {
    for value in 0..=255 {
        with(file, place, value, lent);
    }
}

// e CELLS ADD
pub fn added(file: &mut [u8], lent: usize, add: u8) {
    for i in 0..file.len() {
        let byte = file[i].wrapping_add(add);
        with(file, i, byte, lent);
    }
}

// s CELLS BYTE
pub fn set(file: &mut [u8], lent: usize, byte: u8) {
    for i in 0..file.len() {
        with(file, i, byte, lent);
    }
}

// c CELLS
pub fn cut(file: &[u8], lent: usize) {
    for end in 0..file.len() {
        load(&file[..end], lent);
    }
}

// a CELLS BYTE, the file being the first of so many bytes.
pub fn append(bytes: &mut [u8], length: usize, lent: usize, byte: u8) {
    if length < bytes.len() {
        with(&mut bytes[0..length + 1], length, byte, lent);
    }
}
