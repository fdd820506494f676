// What the store's calls test of what they are given (document 01, "Refused, by where it is found"): the first row that applies is answered.
#![tactic(auto)]

mod code;
mod making;
mod nodes;
mod plain;

pub use making::{test_fix, test_flag, test_join};
pub use nodes::test_nodes;
pub use plain::{test_constant, test_open};
