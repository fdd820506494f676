// The listing's line (document 01, "The listing program"): where it ends, what is refused of it, and the rows that its characters stand for.
#![tactic(auto)]

mod line;

pub use line::{MOST_ROWS, flags_of, is_enough, line_end, read_rows, test_line};
