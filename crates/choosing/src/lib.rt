// Choose over nodes (document 01, "The store"): if-then-else, down from the first flag that any of the three nodes asks.
#![tactic(auto)]

mod nodes;

pub use nodes::choose_nodes;
