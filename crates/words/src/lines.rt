// The lines of standard input, one after the other, by way of a lent buffer that a line and its end must fit.
ghost use Rattle.std.specs.Prelude.{◌≡◌, ◌-◌, ◌≤◌, ◌<◌, IfSome, length};
ghost use Rattle.words.specs.Held.{Held};

use crate::print;
use crate::read::line_end;

// Standard input, by its number.
const STDIN_FILENO: i32 = 0;

// A line in the buffer.
#[derive(Clone, Copy)]
pub struct Line {
    // The lines that may yet be asked for, this one among them. A loop over the lines ends because they get fewer.
    pub left: u64,
    // Where the line starts and ends.
    pub start: usize,
    pub end: usize,
    // How many bytes of the buffer are read.
    pub filled: usize,
}

// Says that there is more than can be read.
fn too_long() {
    print::too_long();
    print::line_end();
}

// The place behind a line and its end.
fn behind(line: Line) -> usize
    requires { line.end ≤ line.filled }
    ensures { result ≤ line.filled }
{
    if line.end < line.filled {
        line.end + 1
    } else {
        line.filled
    }
}

// Moves the bytes between two places to the front: how many they are.
fn shift(buffer: &mut [u8], from: usize, to: usize) -> usize
    requires { (from ≤ to) × (to ≤ length buffer.old) }
    ensures { result ≡ to - from }
{
    buffer.copy_within(from..to, 0);
    to - from
}

// Reads on behind the bytes held: how many the buffer has then.
fn fill(buffer: &mut [u8], held: usize) -> usize
    requires { held ≤ length buffer.old }
    ensures { result ≤ length buffer.new }
{
    held + io::read_full(STDIN_FILENO, &mut buffer[held..])
}

// The line at the front of the buffer, which so many bytes of it are read already.
fn front(buffer: &mut [u8], held: usize, left: u64) -> Option<Line>
    requires { held ≤ length buffer.old }
    ensures { IfSome result (λ found. Held found buffer.new × (found.left ≡ left)) }
{
    let filled = fill(buffer, held);
    if filled == 0 {
        return None;
    }
    let end = line_end(&buffer[0..filled], 0);
    if buffer.len() <= end {
        too_long();
        return None;
    }
    Some(Line {
        left,
        start: 0,
        end,
        filled,
    })
}

// The line behind a line, if there is one.
pub fn next(buffer: &mut [u8], line: Line) -> Option<Line>
    requires { Held line buffer.old × (0 < line.left) }
    ensures { IfSome result (λ found. Held found buffer.new × (0 < found.left) × (found.left < line.left)) }
{
    let left = line.left - 1;
    if left == 0 {
        too_long();
        return None;
    }
    let start = behind(line);
    let filled = line.filled;
    let end = line_end(&buffer[0..filled], start);
    if end < filled {
        return Some(Line {
            left,
            start,
            end,
            filled,
        });
    }
    let held = shift(buffer, start, filled);
    front(buffer, held, left)
}

// The first line, if there is one.
pub fn first(buffer: &mut [u8]) -> Option<Line>
    ensures { IfSome result (λ found. Held found buffer.new × (0 < found.left)) }
{
    front(buffer, 0, u64::MAX)
}

// Calls with one line after the other.
pub fn each<F: FnMut(&[u8])>(buffer: &mut [u8], mut call: F)
    requires { F.IsAlwaysCallable call }
{
    let mut found = first(buffer);
    while let Some(line) = found {
        call(&buffer[line.start..line.end]);
        found = next(buffer, line);
    }
}
