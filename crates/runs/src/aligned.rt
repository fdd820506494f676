ghost use Rattle.std.specs.Prelude.{◌≡◌, ◌+◌, ◌≤◌, length, replicate};
ghost use Rattle.rule.specs.Text.{decimal, blank, right};
ghost use Rattle.runs.specs.Run.{Puts};

use crate::decimal::put_decimal;

// Writes so many blanks.
pub fn put_blanks(bytes: &mut [u8], at: usize, count: usize) -> usize
    requires { at + count ≤ length bytes.old }
    ensures { Puts bytes.old at (replicate count blank) result bytes.new }
{
    let next = at + count;
    bytes[at..next].fill(b' ');
    next
}

// How many decimal digits a number has.
fn digits(x: u16) -> usize
    ensures { result ≡ length (decimal x) }
{
    if x < 10 {
        return 1;
    }
    digits(x / 10) + 1
}

// Writes a number right-aligned in so many places, which have room for its digits.
pub fn put_right(bytes: &mut [u8], at: usize, places: usize, x: u16) -> usize
    requires { (length (decimal x) ≤ places) × (at + places ≤ length bytes.old) }
    ensures { Puts bytes.old at (right places x) result bytes.new × (result ≡ at + places) }
{
    let next = put_blanks(bytes, at, places - digits(x));
    put_decimal(bytes, next, x)
}
