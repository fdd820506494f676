ghost use Rattle.std.specs.Prelude.{◌≡◌, ◌≤◌, length, take, drop};
ghost use Rattle.rule.specs.Text.{read_line};
ghost use Rattle.rule.specs.RigTally.{rig_tally};
ghost use Rattle.runs.specs.Run.{Puts};

use crate::lines::{PRINTED, put_tallied};
use crate::play::play;
use parsing::{MOST_ROWS, flags_of, line_end, read_rows, test_line};
use runs::put_line;

// Where the log starts: behind the line's 0A, or at the end where there is none.
fn log_start(input: &[u8], end: usize) -> usize
    requires { (end ≤ length input.now) × (take end input.now ≡ (read_line input.now).0) }
    ensures { (result ≤ length input.now) × (drop result input.now ≡ (read_line input.now).1) }
{
    if end == input.len() {
        return end;
    }
    end + 1
}

// What is printed of an input, in the first of the lent bytes; how many they are.
pub fn rig_tally(input: &[u8], out: &mut [u8; PRINTED]) -> usize
    ensures { Puts out.old 0 (rig_tally input.now) result out.new × (result ≤ length out.new) }
{
    let end = line_end(input);
    let line = &input[0..end];
    if let Err(refusal) = test_line(line) {
        return put_line(out, 0, b"refused", refusal.number() as u16);
    }
    // kept: lister has these lines too. A function for both would be lent the table and hand back a part of it: its contract alone is longer.
    let mut table = [0u8; MOST_ROWS];
    let rows = &mut table[..line.len()];
    read_rows(line, rows);
    let start = log_start(input, end);
    let n = flags_of(line.len());
    let tallied = play(n, rows, &input[start..]);
    put_tallied(out, n, tallied)
}
