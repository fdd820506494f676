// Fix over nodes (document 01, "The store"): a rule with a flag fixed to a value.
#![tactic(auto)]

mod nodes;

pub use nodes::fix_node;
