use crate::draw::draw;
use crate::{one, pack};
use words::{lines, print};

// One line: its call, and a line of output.
fn line(text: &[u8]) {
    if text.len() == 0 {
        return;
    }
    let command = text[0];
    match command {
        b'd' => draw(text, 2),
        b'b' => one::build(text, 2),
        b'c' => one::check(text, 2),
        b'w' => one::walk(text, 2),
        b'g' => one::walk_under(text, 2),
        b't' => one::tabulate(text, 2),
        b'p' => pack::pack(text, 2),
        b'q' => pack::pack_lent(text, 2),
        _ => print::unknown(),
    }
    print::line_end();
}

// Every line of standard input.
pub fn run() {
    let mut buffer = io::large_buffer();
    lines::each(&mut buffer, line);
}
