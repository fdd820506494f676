// The fields of a rule file (document 01, "Rule files") written into lent bytes, one behind the other: each call hands back the next place.
#![tactic(auto)]

mod fields;
mod parts;

pub use fields::{put_counted, put_label};
pub use parts::put_flags;
