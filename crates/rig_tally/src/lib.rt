// What the program prints that plays a rig log through a table (document 02, request 9).
#![tactic(auto)]

mod lines;
mod play;
mod whole;

pub use lines::PRINTED;
pub use whole::rig_tally;
