// What is asked of a store (a request) and answered, as types, and the calls that make no rule, by their query (document 01, "The store").
#![tactic(auto)]

mod answers;
mod queries;
mod requests;

pub use answers::{Answer, Reached, answered};
pub use queries::{Query, ask};
pub use requests::{Making, Request};
