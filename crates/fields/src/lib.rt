// The fields of a rule file behind n (document 01, "Rule files"): its order, label and records, each read on from where the last one ended, and all together.
#![tactic(auto)]

mod all;
mod label;
mod order;
mod records;

pub use all::read_fields;
