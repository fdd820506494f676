// The words that an answer of the store's calls is noted in (document 01, "The book beside the store"): its number, and the values that it hands back.
#![tactic(auto)]

ghost use Rattle.std.specs.Prelude.{◌≡◌, ◌∷◌, ◌+◌, ◌*◌, ◌≤◌, length, replicate, Ok};
ghost use Rattle.std.proofs.lemmas.List.Edits.{sets};
ghost use Rattle.rule.specs.Answers.{refusal_number};
ghost use Rattle.tallying.specs.Tally.{tallied_reply};
ghost use Rattle.asking.specs.Answer.{answer_reply};
ghost use Rattle.noting.specs.Noted.{note_words, note_of, Tells};

use asking::Answer;
use rule::Refusal;
use tallying::Tally;

// The values that a call hands back at most: those of a tally.
const VALUES: usize = 13;

// The words of one answer.
pub const NOTE: usize = 1 + VALUES;

// The refusal's number, 0 where the call is accepted, and the values, 0 where there are none.
#[derive(Clone, Copy)]
struct Words {
    number: u16,
    values: [u16; VALUES],
}

fn refused(refusal: Refusal) -> Words
    ensures { (result.number ≡ refusal_number refusal) × (result.values ≡ replicate 13 0) }
{
    Words {
        number: refusal.number() as u16,
        values: [0u16; VALUES],
    }
}

fn accepted(first: u16, second: u16, third: u16) -> Words
    ensures { (result.number ≡ 0) × (result.values ≡ first ∷ second ∷ third ∷ replicate 10 0) }
{
    let mut values = [0u16; VALUES];
    values[0] = first;
    values[1] = second;
    values[2] = third;
    Words { number: 0, values }
}

fn counted(tally: Tally) -> Words
    ensures { Tells result.number result.values (tallied_reply (Ok tally)) }
{
    let mut values = [0u16; VALUES];
    values[0] = tally.played;
    values[1] = tally.yes;
    values[2] = tally.changes;
    values[3..].copy_from_slice(&tally.asked);
    Words { number: 0, values }
}

fn noted(answer: Answer) -> Words
    ensures { Tells result.number result.values (answer_reply answer) }
{
    let words = match answer {
        Answer::Done(done) => done.map(|()| accepted(0, 0, 0)),
        Answer::Made(made) => made.map(|node| accepted(node.number, 0, 0)),
        Answer::Said(walked) => {
            walked.map(|said| accepted(said.answer as u16, said.asked, said.count as u16))
        }
        Answer::Sought(sought) => sought.map(|row| accepted(row, 0, 0)),
        Answer::Tallied(tallied) => tallied.map(counted),
    };
    words.unwrap_or_else(refused)
}

// Notes the answer of call k in its words.
pub fn note(answers: &mut [u16], k: usize, answer: Answer)
    requires { k * note_words + note_words ≤ length answers.old }
    ensures { answers.new ≡ sets answers.old (k * note_words) (note_of (answer_reply answer)) }
{
    let words = noted(answer);
    let to = k * NOTE;
    answers[to] = words.number;
    answers[to + 1..to + NOTE].copy_from_slice(&words.values);
}
