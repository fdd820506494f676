// The lines of a listing (document 01, "The listing program"), written from a table's packed diagram.
#![tactic(auto)]

mod count;
mod lines;

pub use lines::{PRINTED, put_report};
