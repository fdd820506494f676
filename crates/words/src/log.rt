// A rig log in words: ODD, then ROW TIMES ROW TIMES .. The log is so many snapshots of each row, one run behind the other, and one byte more where ODD is 1.
ghost use Rattle.std.specs.Prelude.{◌≤◌, length};

use crate::read::number;

// The byte behind the snapshots of a log of odd length.
const LAST: u8 = 7;

// Writes a byte, where there is a place for it: the place behind it.
fn put(out: &mut [u8], at: usize, byte: u8) -> usize
    requires { at ≤ length out.old }
    ensures { result ≤ length out.new }
{
    if out.len() <= at {
        return at;
    }
    out[at] = byte;
    at + 1
}

// Writes so many snapshots of a row, low byte first.
fn put_run(out: &mut [u8], at: usize, row: u16, times: u16) -> usize
    requires { at ≤ length out.old }
    ensures { result ≤ length out.new }
{
    let [low, high] = row.to_le_bytes();
    let mut end = at;
    for _ in 0..times {
        end = put(out, end, low);
        end = put(out, end, high);
    }
    end
}

// Writes the log of the words at a place from a place of `out` on: the place behind it.
pub fn put_log(text: &[u8], at: usize, out: &mut [u8], from: usize) -> usize
    requires { from ≤ length out.old }
    ensures { result ≤ length out.new }
{
    let odd = number(text, at);
    let mut i = odd.next;
    let mut end = from;
    while i < text.len() {
        let row = number(text, i);
        let times = number(text, row.next);
        end = put_run(out, end, row.value, times.value);
        if times.next <= i {
            return end;
        }
        i = times.next;
    }
    if odd.value == 1 {
        return put(out, end, LAST);
    }
    end
}
