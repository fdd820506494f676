// The mathematics that every engine crate's proofs rest on: bits, cofactors, Friedman's lemma, the search over sets that packs a rule, and the one sequence of
// records.
// It has no code: all of it is in proofs/, over the definitions of the crate rule.
#![tactic(auto)]
