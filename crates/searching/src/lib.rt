// The search for the packed order (document 01, "Packing"): the recursion over sets of Friedman (document 001, chapter 3), in the lent workspace.
#![tactic(auto)]

mod order;
mod recursion;

pub use recursion::search;
