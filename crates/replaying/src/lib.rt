// A rig log that is played through a rule (document 02, request 9): what is tested of it, and the tally of its snapshots. The cells are tested once for all of
// them.
#![tactic(auto)]

mod call;
mod log;

pub use call::replay;
pub use log::MOST_LOG;
