// The listing (document 01, "The listing program"): from the bytes found on standard input to the bytes that are printed.
#![tactic(auto)]

mod whole;

pub use whole::listing;
