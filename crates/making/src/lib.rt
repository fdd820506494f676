// The store's calls that make a rule (document 01, "The store"), over a state's parts: the tests, the search for the rule's node, and what it comes to.
#![tactic(auto)]

mod calls;
mod ends;

pub use calls::{choose, fix, flag, join};
pub use ends::constant;
