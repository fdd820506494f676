// Demands 2 and 3, proved of the outcomes of the calls: what build, pack, check, the reader, the writer and print accept stands for one table, how many records
// a diagram has, and what a list of store calls keeps beside its book; what holds of the flags that a walk tells and of its pass rule; which row provoke hands
// back; what the tally of a log counts; which order pack takes of several; in which sequence records stand; that a written rule file is read back, and from the
// second writing on is written to the same bytes; and that printed pages give back every record.
// It has no code: all of it is in proofs/, over the definitions of the crate rule.
#![tactic(auto)]
