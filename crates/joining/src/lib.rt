// Join over nodes (document 01, "The store"): down from the first flag that either node asks, to a node found or added for each branch.
#![tactic(auto)]

mod nodes;

pub use nodes::join_nodes;
