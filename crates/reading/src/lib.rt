// Rule files read (document 01, "Rule files"): the lent cells are touched only when the whole file is known to be fit, and the records then put in the one
// sequence (document 02, request 3).
#![tactic(auto)]

mod call;

pub use call::{label, read};
