// Walks down a diagram and the table of a node (document 01, "Tables, orders, nodes" and "The store"; requests 2 and 5). Both calls take any node of sound cells and
// don't test reach.
#![tactic(auto)]

mod call;
mod pass;
mod steps;

pub use call::{tabulate, walk};
pub use pass::{pass_node, test_row};
pub use steps::{Descent, descend};
