// Standard output, by its number.
const STDOUT_FILENO: i32 = 1;

// A number.
pub fn value(value: u16) {
    io::print_decimal(STDOUT_FILENO, u64::from(value));
}

// A length.
pub fn size(size: usize) {
    io::print_decimal(STDOUT_FILENO, size as u64);
}

// A word, a blank and a number.
pub fn number(word: &[u8], number: u16) {
    io::write_all(STDOUT_FILENO, word);
    io::write_all(STDOUT_FILENO, b" ");
    value(number);
}

// The numbers in cells, a blank ahead of each.
pub fn numbers(cells: &[u16]) {
    for cell in cells {
        number(b"", *cell);
    }
}

pub fn refused(number: u8) {
    io::write_all(STDOUT_FILENO, b"refused ");
    io::print_decimal(STDOUT_FILENO, u64::from(number));
}

pub fn line_end() {
    io::write_all(STDOUT_FILENO, b"\n");
}

// A row's digit as a character.
fn character(digit: u8) -> u8 {
    if digit < 10 { b'0' + digit } else { b'?' }
}

// The rows that are printed at most: those of a table of eleven flags.
const MOST_BYTES: usize = 2048;

// The rows of a table, a digit each.
pub fn rows(table: &[u8]) {
    let mut text = [0u8; MOST_BYTES];
    for (place, digit) in text.iter_mut().zip(table) {
        *place = character(*digit);
    }
    let printed = table.len().min(MOST_BYTES);
    io::write_all(STDOUT_FILENO, &text[..printed]);
}

// Bytes, two digits each, or `-` for none.
pub fn bytes(bytes: &[u8]) {
    if bytes.len() == 0 {
        text(b"-");
    }
    for byte in bytes {
        io::print_hex(STDOUT_FILENO, u64::from(*byte), 2);
    }
}

// Whether what was lent is as it was.
pub fn kept(is: bool) {
    if is {
        text(b" kept");
    } else {
        text(b" altered");
    }
}

// Said of a line that asks for more than the script can lend.
pub fn too_long() {
    text(b"too long");
}

pub fn unknown() {
    io::write_all(STDOUT_FILENO, b"unknown");
}

pub fn text(words: &[u8]) {
    io::write_all(STDOUT_FILENO, words);
}
