// The body of the program that plays a rig log: from standard input to standard output.
#![tactic(auto)]

ghost use Rattle.std.specs.Prelude.{◌≡◌, false, ◌≤◌, length, take};
ghost use Rattle.rig_console.specs.Final.{Final};

use console::{Input, STDIN_FILENO, STDOUT_FILENO};

// As many bytes as count at most: a table's rows and the line end, and one more than the longest log.
const ENOUGH: usize = (parsing::MOST_ROWS + 1) + (replaying::MOST_LOG + 1);

// The bytes of standard input up to its end, or as many as count.
fn read(input: &mut [u8; ENOUGH]) -> Input
    ensures { (result.size ≤ length input.new) × (result.ended ≡ false → Final (take result.size input.new)) }
{
    let size = io::read_full(STDIN_FILENO, input);
    if size < ENOUGH {
        return Input { size, ended: true };
    }
    Input { size, ended: false }
}

// Reads, and prints what is tallied of what was read.
pub fn run() {
    let mut input = [0u8; ENOUGH];
    let found = read(&mut input);
    let size = found.size;
    let mut out = [0u8; rig_tally::PRINTED];
    let printed = rig_tally::rig_tally(&input[0..size], &mut out);
    io::write_all(STDOUT_FILENO, &out[0..printed]);
}
