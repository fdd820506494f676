// What a search for a rule's node comes to in a call that makes a rule (document 01, "The store"): the node, or no room, where the cells are left as they were.
#![tactic(auto)]

mod ending;

pub use ending::{Outcome, conclude};
