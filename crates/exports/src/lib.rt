// C names for nine of the calls, walk under a pass rule by one of its own, for the programs of bench/ to measure: `rt lib` here makes the library, and
// bench/engine.h declares them for C.
//
// Each promises the relation of the call that it wraps, of the reply that its number codes (`specs/Word.antt`): the refusal, 0 where the call is accepted, then
// the values that it hands back. Numbers go through as they are. An order is a reference to its ten bytes, a node its number. C passes a slice as a pointer and
// the number of its elements.
//
// To add a call: its function in the file of its kind (`diagram`, `filed`, `kept`, `packed`, `played`), a `pub use` here, and its line in bench/engine.h.
#![tactic(auto)]

mod diagram;
mod filed;
mod kept;
mod packed;
mod played;
mod values;

pub use diagram::{
    engine_build, engine_check, engine_provoke, engine_tabulate, engine_walk, engine_walk_under,
};
pub use filed::engine_read;
pub use kept::engine_join;
pub use packed::engine_pack;
pub use played::engine_replay;
