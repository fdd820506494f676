// The values that the engine's calls take and hand back (document 01): orders, nodes, the answer of each call, and why one is refused; and the numbers of a rule
// file by name. What they mean is in specs/; every other crate's contracts cite those definitions.
#![tactic(auto)]

mod answer;
mod file;
mod node;
mod order;
mod refusal;

pub use answer::{Drawn, Loaded, Packed, Said};
pub use file::{
    COUNT_SIZE, FLAGS_BIT, LABEL_BIT, LONGEST_LABEL, MAP_END, ORDER_BIT, RECORD_SIZE, RECORDS_BIT,
    YES_BIT,
};
pub use node::Node;
pub use order::Order;
pub use refusal::Refusal;
