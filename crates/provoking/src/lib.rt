// A snapshot to provoke an answer (document 02, request 8): the lowest row that a pass rule allows, that has the fixed values and for which a rule gives the
// wanted answer. The search goes down both diagrams at once. The first path that it finds need not lead to the lowest row: rows go by number, whatever the order.
#![tactic(auto)]

mod aim;
mod call;
mod search;

pub use call::provoke;
