// Build: the reduced ordered diagram of a table under an order (document 01, "Tables, orders, nodes"), drawn aside, and laid in the
// one sequence (document 02, request 3) where there is room.
#![tactic(auto)]

mod call;

pub use call::build;
