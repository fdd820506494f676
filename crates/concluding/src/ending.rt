ghost use Rattle.std.specs.Prelude.{◌≡◌, [], ◌∷◌, ◌≤◌};
ghost use Rattle.rule.specs.Cells.{room};
ghost use Rattle.rule.specs.Reply.{refused};
ghost use Rattle.rule.specs.Answers.{refusal_number, made_reply};
ghost use Rattle.concluding.specs.Conclude.{Concludes};

use rule::{Node, Refusal};
use unique::Grown;

// The used records after a call that makes a rule, beside its answer.
#[derive(Clone, Copy)]
pub struct Outcome {
    pub used: u16,
    pub answer: Result<Node, Refusal>,
}

// A refusal, with the used records as given.
fn refuse(used: u16, refusal: Refusal) -> Outcome
    ensures { (result.used ≡ used) × (made_reply result.answer ≡ refused (refusal_number refusal) (0 ∷ [])) }
{
    Outcome {
        used,
        answer: Err(refusal),
    }
}

// What a search from so many used records comes to: the node, or no room, where the records that were added are cleared again.
pub fn conclude(cells: &mut [u16], used: u16, grown: Grown) -> Outcome
    requires { used ≤ room cells.old }
    ensures { Concludes grown.found cells.old used grown.used result cells.new }
{
    match grown.found {
        Some(number) => Outcome {
            used: grown.used,
            answer: Ok(Node { number }),
        },
        None => {
            cells::clear_from(cells, used);
            refuse(used, Refusal::NoRoom)
        }
    }
}
