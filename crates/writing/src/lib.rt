// Rule files written (document 01, "Rule files").
#![tactic(auto)]

mod call;

pub use call::write;
