// The levels of an order's flags (document 01, "Tables, orders, nodes").
#![tactic(auto)]

mod level;

pub use level::Levels;
