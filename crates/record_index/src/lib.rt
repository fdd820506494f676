// The index of the used records: the record of a flag, a low and a high node is found without a look at all of them. The test of sound cells (document 01,
// "Tables, orders, nodes") and the unique table share it.
#![tactic(auto)]

mod index;

pub use index::{INDEX, enter, find};
