// The second program's tables, each line of standard input listed by itself. tests/second/listing.rs says what must be written.
#![tactic(auto)]

use words::{lines, print};

// The listing of one line.
fn list(line: &[u8]) {
    let mut out = [0u8; report::PRINTED];
    let printed = lister::listing(line, &mut out);
    print::text(&out[0..printed]);
}

// Every line of standard input.
fn main() {
    let mut buffer = io::large_buffer();
    lines::each(&mut buffer, list);
}
