// Whether lent cells are sound (document 01, "Tables, orders, nodes"), record by record. The test enters each record in the index of the unique table as it
// goes, so that a call that adds records goes on with it.
#![tactic(auto)]

mod record;
mod records;

pub use records::sound;
