ghost use Rattle.std.specs.Prelude.{◌<◌, ◌≤◌, length};

use rule::Order;

// A number that was read, and the place behind it and the blank after it.
#[derive(Clone, Copy)]
pub struct Word {
    pub value: u16,
    pub next: usize,
}

// A number as a byte, 255 where it is above that: as a flag count and as an operator, refused either way.
pub fn byte(value: u16) -> u8 {
    value.min(255) as u8
}

// The place behind the word at a place and the blank after it.
pub fn behind(text: &[u8], at: usize) -> usize {
    for i in at..text.len() {
        if text[i] == b' ' {
            return i + 1;
        }
    }
    at.max(text.len())
}

// The number at a place: its digits up to a blank or the end. It wraps where std's own reading refuses.
pub fn number(text: &[u8], at: usize) -> Word {
    let mut value: u16 = 0;
    for i in at..text.len() {
        let byte = text[i];
        if byte < b'0' {
            return Word { value, next: i + 1 };
        }
        let digit = u16::from((byte - b'0') % 10);
        value = value.wrapping_mul(10).wrapping_add(digit);
    }
    Word {
        value,
        next: at.max(text.len()),
    }
}

// Writes a byte, where there is a place for it.
fn put(out: &mut [u8], place: usize, byte: u8) {
    if place < out.len() {
        out[place] = byte;
    }
}

// The digits at a place, up to a blank or the end, one to a byte of `out`: how many there are.
pub fn digits(text: &[u8], at: usize, out: &mut [u8]) -> Word {
    let mut count: u16 = 0;
    for i in at..text.len() {
        let byte = text[i];
        if byte < b'0' {
            return Word {
                value: count,
                next: i + 1,
            };
        }
        put(out, count as usize, byte - b'0');
        count = count.saturating_add(1);
    }
    Word {
        value: count,
        next: at.max(text.len()),
    }
}

// The order at a place.
pub fn order(text: &[u8], at: usize) -> Order {
    let mut places = [0u8; 10];
    digits(text, at, &mut places);
    Order { places }
}

// The value of a digit, 0 to 9 or a to f. `to_digit` would take A to F too.
fn digit(character: u8) -> u8
    ensures { result < 16 }
{
    match character {
        b'0'..=b'9' => character - b'0',
        b'a'..=b'f' => character - b'a' + 10,
        _ => 0,
    }
}

// The bytes at a place, two digits each, up to a blank or the end, one to a byte of `out`: how many there are. The word `-` has none.
pub fn bytes(text: &[u8], at: usize, out: &mut [u8]) -> Word {
    let mut count: u16 = 0;
    for i in (at..text.len()).step_by(2) {
        let second = i + 1;
        if text[i] < b'0' {
            return Word {
                value: count,
                next: behind(text, i),
            };
        }
        if text.len() <= second {
            return Word {
                value: count,
                next: i,
            };
        }
        put(
            out,
            count as usize,
            digit(text[i]) * 16 + digit(text[second]),
        );
        count = count.saturating_add(1);
    }
    Word {
        value: count,
        next: at.max(text.len()),
    }
}

// The numbers from a place on, one to a cell: how many there are.
pub fn cells(text: &[u8], at: usize, out: &mut [u16]) -> usize
    ensures { result ≤ length out.new }
{
    let mut next = at;
    for (count, cell) in out.iter_mut().enumerate() {
        if text.len() <= next {
            return count;
        }
        let word = number(text, next);
        *cell = word.value;
        next = word.next;
    }
    out.len()
}

// Where the line at a place ends: at its line end, or at the end of the text.
pub fn line_end(text: &[u8], at: usize) -> usize
    requires { at ≤ length text.now }
    ensures { (at ≤ result) × (result ≤ length text.now) }
{
    match text[at..].iter().position(|byte| *byte == b'\n') {
        Some(place) => at + place,
        None => text.len(),
    }
}
