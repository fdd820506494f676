// What the recursions of the store's calls share (document 01, "The store"): one step down from a node, and one flag. Each goes through the unique table, so that
// it adds the records of the result's own diagram and no others.
#![tactic(auto)]

mod single;
mod step;

pub use single::flag_node;
pub use step::{Branches, both_branches, branch, earlier, level_of};
