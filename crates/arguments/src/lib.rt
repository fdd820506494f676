// The tests that the calls make of a flag count and a table (document 01, refusals 1 to 3) and of a label's bytes (13).
#![tactic(auto)]

mod label;
mod table;

pub use label::all_printable;
pub use table::{row_count, test_table};
