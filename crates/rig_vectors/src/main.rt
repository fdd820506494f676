// The second program's rig logs, each line of standard input played by itself. A line has a table's characters, up to the first `;`, and behind it a log in
// words that stand one blank apart (words::log). A line without `;` is an input without a line end. tests/second/log.rs says what must be written.
#![tactic(auto)]

mod assemble;

use assemble::assemble;
use words::{lines, print};

// One byte more than an input may have: one that fills them all does not fit.
const MOST: usize = 150001;

// What is printed of one line's input.
fn play(line: &[u8]) {
    let mut input = [0u8; MOST];
    let size = assemble(line, &mut input);
    if size == MOST {
        print::too_long();
        print::line_end();
        return;
    }
    let mut out = [0u8; rig_tally::PRINTED];
    let printed = rig_tally::rig_tally(&input[0..size], &mut out);
    print::text(&out[0..printed]);
}

// Every line of standard input.
fn main() {
    let mut buffer = io::large_buffer();
    lines::each(&mut buffer, play);
}
