// A rule file read whole and tested (document 01, "Rule files"), its records laid in cells aside: the lent ones are not touched.
#![tactic(auto)]

mod aside;
mod records;

pub use aside::{read_aside, root_of};
