ghost use Rattle.std.specs.Prelude.{◌≡◌, take, drop};
ghost use Rattle.rule.specs.Answers.{done_reply};
ghost use Rattle.rule.specs.Calls.{Tabulate, Replay};
ghost use Rattle.rule.specs.Pass.{pass_of};
ghost use Rattle.tallying.specs.Tally.{tallied_reply};
ghost use Rattle.store.specs.State.{state_of};
ghost use Rattle.asking.specs.Query.{Answers};

use crate::answers::{Answer, Reached, answered};
use rule::Node;
use store::{Kept, Store};
use tallying::Tally;

// A call that makes no rule, with its arguments.
#[derive(Clone, Copy)]
pub enum Query {
    // Into so many of the lent bytes, from the first on.
    Tabulate {
        rule: Node,
        length: u16,
    },
    Walk {
        rule: Node,
        pass: Option<Node>,
        row: u16,
    },
    Provoke {
        rule: Node,
        wanted: u16,
        pass: Node,
        fixed: u16,
        ones: u16,
    },
    // The log is so many of the lent bytes, from the first on.
    Replay {
        rule: Node,
        pass: Option<Node>,
        length: u16,
    },
}

// Tabulate into so many of the lent bytes, from the first on: into all, where there are fewer.
fn tabulated(store: Store, cells: &[u16], rule: Node, length: u16, bytes: &mut [u8]) -> Kept<()>
    ensures tabulate { Tabulate (state_of store) cells.now rule.number (take length bytes.old) (done_reply result.answer) (state_of result.store) (take length bytes.new) }
    ensures bytes_unchanged { drop length bytes.new ≡ drop length bytes.old }
{
    let end = length as usize;
    if bytes.len() <= end {
        return store.tabulate(cells, rule, bytes);
    }
    store.tabulate(cells, rule, &mut bytes[0..end])
}

// Replay a log that is so many of the lent bytes, from the first on: all, where there are fewer.
fn replayed(
    store: Store,
    cells: &[u16],
    rule: Node,
    pass: Option<Node>,
    length: u16,
    bytes: &[u8],
) -> Kept<Tally>
    ensures { Replay (state_of store) cells.now rule.number (pass_of pass) (take length bytes.now) (tallied_reply result.answer) (state_of result.store) }
{
    let size = length as usize;
    if bytes.len() <= size {
        return store.replay(cells, rule, pass, bytes);
    }
    store.replay(cells, rule, pass, &bytes[0..size])
}

// Make one call that makes no rule.
pub fn ask(store: Store, cells: &[u16], query: Query, bytes: &mut [u8]) -> Reached
    ensures { Answers query (state_of store) cells.now bytes.old result bytes.new }
{
    match query {
        Query::Tabulate { rule, length } => answered(
            tabulated(store, cells, rule, length, bytes),
            Answer::Done,
        ),
        Query::Walk { rule, pass, row } => answered(
            store.walk(cells, rule, pass, row),
            Answer::Said,
        ),
        Query::Provoke {
            rule,
            wanted,
            pass,
            fixed,
            ones,
        } => answered(
            store.provoke(cells, rule, wanted, pass, fixed, ones),
            Answer::Sought,
        ),
        Query::Replay { rule, pass, length } => answered(
            replayed(store, cells, rule, pass, length, bytes),
            Answer::Tallied,
        ),
    }
}
