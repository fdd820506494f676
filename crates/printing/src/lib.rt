// A diagram printed on pages (document 02, request 4).
#![tactic(auto)]

mod call;

pub use call::print;
