// Runs of bytes written into lent ones, one behind the other: each call hands back the next place.
#![tactic(auto)]

mod aligned;
mod decimal;
mod run;

pub use aligned::{put_blanks, put_right};
pub use decimal::{put_decimal, put_line, put_number};
pub use run::{put_byte, put_run};
