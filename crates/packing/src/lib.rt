// Packing: of all orders of a table's flags the one with the fewest nodes, of several the one whose walks ask the fewest flags, and of these the first by
// dictionary comparison; and the diagram that it draws.
#![tactic(auto)]

mod call;

pub use call::pack;
