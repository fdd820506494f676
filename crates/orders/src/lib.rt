// The tests that the calls make of a flag count and an order (document 01, refusals 1 and 4).
#![tactic(auto)]

mod order;

pub use order::{fit_order, test_order};
