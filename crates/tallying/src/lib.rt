// The tally of a log (document 02, request 9): one record, which each snapshot updates. The work is done by value; `tick` is lent the record, and `ticked`
// serves a caller that holds it by value.
#![tactic(auto)]

ghost use Rattle.std.specs.Prelude.{◌≡◌, ℕ, ◌<◌, get_or};
ghost use Rattle.tallying.specs.Tally.{counted, changed, Counts, next_tally};

// Snapshots played, yes answers, changes of answer, and how often each flag was asked.
#[derive(Clone, Copy)]
pub struct Tally {
    pub played: u16,
    pub yes: u16,
    pub changes: u16,
    pub asked: [u16; 10],
}

impl Tally {
    // The tally of no snapshot: zeros.
    pub const ZEROS: Tally = Tally {
        played: 0,
        yes: 0,
        changes: 0,
        asked: [0; 10],
    };
}

// One more for each flag of the set.
fn count(asked: [u16; 10], flags: u16) -> [u16; 10]
    requires { (k : ℕ) → get_or asked k 0 < 65535 }
    ensures { result ≡ counted asked flags }
{
    let mut counts = asked;
    let mut rest = flags;
    for count in counts.iter_mut() {
        *count += rest % 2;
        rest /= 2;
    }
    counts
}

// 1 where there is a snapshot before and the answer is another.
fn change(played: u16, last: u8, answer: u8) -> u16
    ensures { result ≡ changed played last answer }
{
    if played == 0 {
        return 0;
    }
    if answer == last {
        return 0;
    }
    1
}

// The tally with one snapshot more: its answer, and the flags that were asked.
fn next(tally: Tally, last: u8, answer: u8, flags: u16) -> Tally
    requires { Counts tally × (tally.played < 32767) × (answer < 2) }
    ensures { result ≡ next_tally tally last answer flags }
{
    let was = tally.asked;
    let asked = count(was, flags);
    let change = change(tally.played, last, answer);
    Tally {
        played: tally.played + 1,
        yes: tally.yes + answer as u16,
        changes: tally.changes + change,
        asked,
    }
}

// The tally that is lent, with one snapshot more.
pub fn tick(tally: &mut Tally, last: u8, answer: u8, flags: u16)
    requires { Counts tally.old × (tally.old.played < 32767) × (answer < 2) }
    ensures { tally.new ≡ next_tally tally.old last answer flags }
{
    *tally = next(*tally, last, answer, flags);
}

// The same for a caller that holds the tally by value.
pub fn ticked(start: Tally, last: u8, answer: u8, flags: u16) -> Tally
    requires { Counts start × (start.played < 32767) × (answer < 2) }
    ensures { result ≡ next_tally start last answer flags }
{
    let mut held = start;
    tick(&mut held, last, answer, flags);
    held
}
