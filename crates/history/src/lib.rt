// One of the store's calls by its request, made for a list of them (document 01, "The book beside the store").
#![tactic(auto)]

mod stepping;

pub use stepping::step;
