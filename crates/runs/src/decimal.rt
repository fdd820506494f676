ghost use Rattle.std.specs.Prelude.{◌++◌, ◌+◌, ◌≤◌, length};
ghost use Rattle.rule.specs.Text.{decimal, number, line_end};
ghost use Rattle.runs.specs.Run.{Puts};

use crate::run::{put_byte, put_run};

// Writes a number in decimal digits.
pub fn put_decimal(bytes: &mut [u8], at: usize, x: u16) -> usize
    requires { at + length (decimal x) ≤ length bytes.old }
    ensures { Puts bytes.old at (decimal x) result bytes.new }
{
    if x < 10 {
        return put_byte(bytes, at, b'0' + x as u8);
    }
    let next = put_decimal(bytes, at, x / 10);
    put_byte(bytes, next, b'0' + (x % 10) as u8)
}

// Writes a blank and a number, which are at most six bytes.
pub fn put_number(bytes: &mut [u8], at: usize, x: u16) -> usize
    requires { at + 6 ≤ length bytes.old }
    ensures { Puts bytes.old at (number x) result bytes.new × (result ≤ at + 6) }
{
    let next = put_byte(bytes, at, b' ');
    put_decimal(bytes, next, x)
}

// Writes a line of a word and a number.
pub fn put_line(bytes: &mut [u8], at: usize, word: &[u8], x: u16) -> usize
    requires { at + (length word.now + 7) ≤ length bytes.old }
    ensures { Puts bytes.old at (word.now ++ (number x ++ line_end)) result bytes.new × (result ≤ at + (length word.now + 7)) }
{
    let named = put_run(bytes, at, word);
    let numbered = put_number(bytes, named, x);
    put_byte(bytes, numbered, b'\n')
}
