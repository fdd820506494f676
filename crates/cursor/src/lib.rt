// A rule file read on (document 01, "Rule files"): the cursor by value, and what is read first, the bit map and n.
#![tactic(auto)]

mod bytes;
mod field;
mod place;

pub use bytes::two_at;
pub use field::{bit_map, read_flags, read_map};
pub use place::Cursor;
