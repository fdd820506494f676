// The body of the listing program: from standard input to standard output. `rig_console` shares what stands above `ENOUGH`, and `Input`.
#![tactic(auto)]

ghost use Rattle.std.specs.Prelude.{◌≡◌, false, ◌≤◌, ◌<◌, length, take};
ghost use Rattle.rule.specs.Listing.{most_rows};
ghost use Rattle.parsing.specs.Final.{Final};

// Standard input, by its number.
pub const STDIN_FILENO: i32 = 0;
// Standard output, by its number.
pub const STDOUT_FILENO: i32 = 1;

// As many bytes as a listing needs at most: one more than a table's rows.
const ENOUGH: usize = parsing::MOST_ROWS + 1;

// What was read of standard input: so many bytes, and whether it ended with them.
#[derive(Clone, Copy)]
pub struct Input {
    pub size: usize,
    // kept: it is read by the clauses of both `read`s alone, but a ghost field can't stand for it: that states a fact and holds no value.
    pub ended: bool,
}

// The bytes of standard input up to its end, or as many as are needed. They come one by one, so that none behind the line is taken.
fn read(input: &mut [u8]) -> Input
    requires { most_rows < length input.old }
    ensures { (result.size ≤ length input.new) × (result.ended ≡ false → Final (take result.size input.new)) }
{
    for i in 0..input.len() {
        if parsing::is_enough(&input[0..i]) {
            return Input {
                size: i,
                ended: false,
            };
        }
        if io::read_full(STDIN_FILENO, &mut input[i..i + 1]) == 0 {
            return Input {
                size: i,
                ended: true,
            };
        }
    }
    Input {
        size: input.len(),
        ended: false,
    }
}

// Reads, and prints what is listed of what was read.
// kept: rig_console's `run` has other sizes and other calls. One for both would be longer: two const parameters, two closures and a clause on each.
pub fn run() {
    let mut input = [0u8; ENOUGH];
    let found = read(&mut input);
    let size = found.size;
    let mut out = [0u8; report::PRINTED];
    let printed = lister::listing(&input[0..size], &mut out);
    io::write_all(STDOUT_FILENO, &out[0..printed]);
}
