// The unique table: the node of a flag, a low and a high node, found among the used records or added to them. Build and the store's calls draw every node
// through it, so that no two records are equal and none has two equal children. An index beside the cells says where to look.
#![tactic(auto)]

mod above;
mod node;

pub use above::make_above;
pub use node::{Grown, make};
