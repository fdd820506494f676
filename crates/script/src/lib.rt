// A small language for test programs over single diagrams: a line a call, and a line of output for each. Words stand one blank apart.
//
//     d TABLE ORDER                        draw the table, check, tabulate and walk it: its nodes, those asking each flag, a sum over what walks ask, its cells
//     b N CELLS TABLE ORDER                build into so many lent cells, with 7 in each
//     c N ORDER USED ROOT CELL CELL ..     check
//     w N ORDER USED NODE ROW CELL ..      walk
//     g N ORDER USED NODE PASS ROW CELL .. walk under a pass rule's node
//     t N ORDER USED NODE BYTES CELL ..    tabulate into so many lent bytes
//     p TABLE                              pack the table: its nodes, its order, the nodes asking each flag, its cells
//     q N CELLS WORKSPACE TABLE            pack into so many lent cells, with 7 in each, by so many of workspace, with 5 in each, and what these have then
//
// A table is a digit for each row, row 0 first. An order is a digit for each flag, and what is not written of its ten places is 0. Cells are printed one by one
// up to six flags, and from seven on as a sum over them.
#![tactic(auto)]

mod draw;
mod lent;
mod one;
mod pack;
mod playing;

pub use playing::run;
