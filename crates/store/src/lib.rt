// The store of several rules under one order (document 01, "The store"; document 02, requests 8 and 9): its state, which goes into each call and comes back, and
// the ten calls, which are methods of the state.
#![tactic(auto)]

mod plain;
mod rules;
mod state;

pub use state::{Kept, Store};
