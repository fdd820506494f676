// What test programs share: the lines of standard input, the words of a line read, values printed, lent cells and bytes filled and looked at,
// and rig logs written.
#![tactic(auto)]

pub mod diagram;
pub mod lent;
pub mod lines;
pub mod log;
pub mod print;
pub mod read;
