// A page of the printed sheet (document 02, request 4), written into lent bytes: each call hands back the next place.
#![tactic(auto)]

mod line;
mod page;

pub use line::Sheet;
pub use page::{PAGE_BYTES, RECORD_LINES};
