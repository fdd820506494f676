ghost use Rattle.std.specs.Prelude.{◌≡◌};

use rule::{Node, Refusal, Said};
use store::{Kept, Store};
use tallying::Tally;

// What a call answers, whichever it is.
#[derive(Clone, Copy)]
pub enum Answer {
    Done(Result<(), Refusal>),
    Made(Result<Node, Refusal>),
    Said(Result<Said, Refusal>),
    Sought(Result<u16, Refusal>),
    Tallied(Result<Tally, Refusal>),
}

// The state beside the answer.
#[derive(Clone, Copy)]
pub struct Reached {
    pub store: Store,
    pub answer: Answer,
}

// What a call reached: its answer is one of this kind.
pub fn answered<T, F: FnOnce(Result<T, Refusal>) -> Answer>(kept: Kept<T>, kind: F) -> Reached
    requires { F.pre kind kept.answer }
    ensures { (result.store ≡ kept.store) × F.post kind kept.answer result.answer }
{
    Reached {
        store: kept.store,
        answer: kind(kept.answer),
    }
}
