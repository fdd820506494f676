// The drawing of a table under an order (document 01, "Tables, orders, nodes"). The decision tree is drawn from its leaves up, and each node goes through the
// unique table, so that neither collapsing step of document 001 is left to apply.
#![tactic(auto)]

mod tree;

pub use tree::draw;
