// Nineteen store calls in one `playing::play`, with junk in the lent cells, bytes and answer words, these for one call more. What it must write is worked out
// by hand from documents 01 and 02. Record k is node k + 2; each rule made here needs one record that the store lacks, which goes behind the used ones, since
// older node numbers keep their meaning. After the first open flag 0 is (0, 0, 1), node 2; flag 1 is (1, 0, 1), node 3; their OR is (0, 3, 1), node 4; flag 1
// without flag 0 is (0, 3, 0), node 5. After the second flag 2 is (2, 0, 1), node 2. Cells past the used records are 0; bytes and answer words that no call
// writes are as found.
#![tactic(auto)]

use coding::CALL;
use noting::NOTE;
use playing::play;
use rule::Order;
use store::Store;
use words::{print, read};

const CALLS: usize = 19;

const WORDS: usize = CALLS * CALL;

const ANSWERS: usize = CALLS * NOTE + NOTE;

// The words, a call a line: an open of two flags, both, their OR, its table into four bytes, and a walk of it for row 0, which asks both flags; two walks of it
// under flag 0 as pass rule, which forbids row 0 and allows row 1, of which the OR asks flag 0 alone; two provokes of it: yes with all rows allowed and flag 0
// fixed to 0 is lowest in row 2, and no in no row that flag 0 allows; flag 1 without flag 0, whose table goes into four bytes, so that they are a log of rows 0
// and 1, and two replays of it through the OR: for row 0 it asks both flags, for row 1, which is a change, flag 0 alone; flag 0 as pass rule forbids row 0; an
// open of three flags, flag 2, its table into eight bytes, a walk of it for row 4, and a join by code 16, which is refused under 9.
const LIST: [u8; 496] = *b"\
    0 2 0 0 1 0 0 0 0 0 0 0 0 \
    2 0 0 0 0 0 0 0 0 0 0 0 0 \
    2 1 0 0 0 0 0 0 0 0 0 0 0 \
    3 7 2 3 0 0 0 0 0 0 0 0 0 \
    6 4 4 0 0 0 0 0 0 0 0 0 0 \
    7 4 0 0 0 0 0 0 0 0 0 0 0 \
    8 4 2 0 0 0 0 0 0 0 0 0 0 \
    8 4 2 1 0 0 0 0 0 0 0 0 0 \
    9 4 1 1 1 0 0 0 0 0 0 0 0 \
    9 4 0 2 0 0 0 0 0 0 0 0 0 \
    3 2 3 2 0 0 0 0 0 0 0 0 0 \
    6 5 4 0 0 0 0 0 0 0 0 0 0 \
    10 4 4 0 0 0 0 0 0 0 0 0 0 \
    11 4 2 4 0 0 0 0 0 0 0 0 0 \
    0 3 0 0 1 2 0 0 0 0 0 0 0 \
    2 2 0 0 0 0 0 0 0 0 0 0 0 \
    6 2 8 0 0 0 0 0 0 0 0 0 0 \
    7 2 4 0 0 0 0 0 0 0 0 0 0 \
    3 16 2 2 0 0 0 0 0 0 0 0 0";

fn main() {
    let mut words = [0u16; WORDS];
    read::cells(&LIST, 0, &mut words);
    let mut cells = [7u16; 30];
    let mut bytes = [5u8; 9];
    let mut answers = [3u16; ANSWERS];
    let order = Order::ZEROS;
    let first = Store {
        n: 0,
        order,
        used: 0,
    };
    let played = play(first, &words, &mut cells, &mut bytes, &mut answers);
    let store = played.store;
    print::text(b"made ");
    print::size(played.made);
    print::text(b"\nanswers");
    print::numbers(&answers);
    print::text(b"\nbytes ");
    print::rows(&bytes);
    print::number(b"\nn", store.n as u16);
    print::number(b" used", store.used);
    print::text(b"\ncells");
    print::numbers(&cells);
    print::line_end();
}
