ghost use mathlib.Core.List.{flat_map};
ghost use Rattle.std.specs.Prelude.{◌+◌, ◌*◌, ◌≤◌, length, take};
ghost use Rattle.rule.specs.RigTally.{number_line, printed_tally};
ghost use Rattle.runs.specs.Run.{Puts};
ghost use Rattle.tallying.specs.Tally.{tally_values, tallied_reply};
ghost use Rattle.rig_tally.specs.Printed.{most_printed};

use rule::Refusal;
use runs::{put_byte, put_decimal, put_line};
use tallying::Tally;

// The most numbers of a tally: three, and one for each flag.
const NUMBERS: usize = 3 + 10;

// The most bytes of a number's line: a number of 16 bits and the line end.
const LINE: usize = 5 + 1;

// The bytes that a tally takes at most. A refusal takes fewer.
pub const PRINTED: usize = NUMBERS * LINE;

// Writes a number alone on its line.
fn put_number_line(out: &mut [u8], at: usize, x: u16) -> usize
    requires { at + 6 ≤ length out.old }
    ensures { Puts out.old at (number_line x) result out.new × (result ≤ at + 6) }
{
    let next = put_decimal(out, at, x);
    put_byte(out, next, b'\n')
}

// Writes how often each flag below n was asked.
fn put_asked(out: &mut [u8], at: usize, n: u8, asked: [u16; 10]) -> usize
    requires { (n ≤ 10) × (at + n * 6 ≤ length out.old) }
    ensures { Puts out.old at (flat_map number_line (take n asked)) result out.new × (result ≤ at + n * 6) }
{
    let mut next = at;
    for v in 0..n {
        next = put_number_line(out, next, asked[v as usize]);
    }
    next
}

// Writes a tally of n flags.
fn put_tally(out: &mut [u8], n: u8, tally: Tally) -> usize
    requires { (n ≤ 10) × (most_printed ≤ length out.old) }
    ensures { Puts out.old 0 (flat_map number_line (take (3 + n) (tally_values tally))) result out.new }
{
    let asked = tally.asked;
    let played = put_number_line(out, 0, tally.played);
    let yes = put_number_line(out, played, tally.yes);
    let changes = put_number_line(out, yes, tally.changes);
    put_asked(out, changes, n, asked)
}

// Writes what is printed of a log that was played, or refused.
pub fn put_tallied(out: &mut [u8], n: u8, tallied: Result<Tally, Refusal>) -> usize
    requires { (n ≤ 10) × (most_printed ≤ length out.old) }
    ensures { Puts out.old 0 (printed_tally n (tallied_reply tallied)) result out.new }
{
    match tallied {
        Ok(tally) => put_tally(out, n, tally),
        Err(refusal) => put_line(out, 0, b"refused", refusal.number() as u16),
    }
}
