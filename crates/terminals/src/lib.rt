// The terminal cases of a join (document 01, "The store"): what two rules joined are at once, where nothing is gone down for.
#![tactic(auto)]

mod terminal;

pub use terminal::terminal_case;
