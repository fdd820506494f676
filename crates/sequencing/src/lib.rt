// A diagram's records put in the one sequence (document 02, request 3): level by level from the last, and in a level by the numbers that the children have by
// then.
#![tactic(auto)]

mod branches;
mod level;
mod records;
mod words;

pub use records::sequence;
