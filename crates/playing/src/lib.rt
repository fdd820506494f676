// A list of the store's calls as words code it, made one after the other, and each answer noted (document 01, "The book beside the store"). What demand 3
// claims of such a run is `PlayKept` in specs/Kept.antt.
#![tactic(auto)]

ghost use Rattle.std.specs.Prelude.{◌≡◌, ◌+◌, ◌*◌, ◌/◌, ◌≤◌, min, length};
ghost use Rattle.store.specs.State.{state_of};
ghost use Rattle.coding.specs.Coded.{call_words};
ghost use Rattle.noting.specs.Noted.{note_words};
ghost use Rattle.playing.specs.Played.{room_for, Turns, Plays};

use coding::{CALL, given_at, request_at};
use history::step;
use noting::{NOTE, note};
use store::Store;

// The last state, and how many calls were made.
#[derive(Clone, Copy)]
pub struct Played {
    pub store: Store,
    pub made: usize,
}

// Make the call that the words code as number k, and note its answer.
fn turn(
    store: Store,
    k: usize,
    words: &[u16],
    cells: &mut [u16],
    bytes: &mut [u8],
    answers: &mut [u16],
) -> Store
    requires { (k * call_words + call_words ≤ length words.now) × (k * note_words + note_words ≤ length answers.old) }
    ensures { Turns words.now k (state_of store) cells.old bytes.old answers.old (state_of result) cells.new bytes.new answers.new }
{
    let at = k * CALL;
    let request = request_at(words, at);
    let given = given_at(words, at);
    let reached = step(store, given, request, cells, bytes);
    note(answers, k, reached.answer);
    reached.store
}

// How many calls so many words code whose answers so many words take.
fn room_for(words: usize, answers: usize) -> usize
    ensures { result ≡ min (words / call_words) (answers / note_words) }
{
    (words / CALL).min(answers / NOTE)
}

// Make the calls that the words code, one after the other, as long as there is room for their answers: each is given the state, the cells and the bytes as the
// last one left them.
pub fn play(
    first: Store,
    words: &[u16],
    cells: &mut [u16],
    bytes: &mut [u8],
    answers: &mut [u16],
) -> Played
    ensures made_value { result.made ≡ room_for words.now answers.old }
    ensures plays { Plays words.now result.made (state_of first) cells.old bytes.old answers.old (state_of result.store) cells.new bytes.new answers.new }
{
    let room = room_for(words.len(), answers.len());
    let mut store = first;
    for k in 0..room {
        store = turn(store, k, words, cells, bytes, answers);
    }
    Played { store, made: room }
}
