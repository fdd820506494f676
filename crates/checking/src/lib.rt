// Lent cells checked (document 01, "Tables, orders, nodes"): the refusals of cells with used records, the call check, and whether cells are a diagram.
#![tactic(auto)]

mod call;

pub use call::{check, is_diagram, test_records};
