// A list of store calls in a test program (document 01, "The store"): how far it was played, its first line, the words of a call's line, and its end.
#![tactic(auto)]

mod beginning;
mod ending;
mod reading;
mod session;

pub use beginning::{begin, fresh};
pub use ending::{MOST_ROWS, end};
pub use reading::{given, state};
pub use session::{CALLS, Made, Session};
