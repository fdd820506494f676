// The calls of a list, each coded in words and made through `playing::play`, given the state and the cells as the last one left them. What is printed of a
// call's answer is read off the words that it was noted in.
use coding::CALL;
use noting::NOTE;
use playing::play;
use sessions::{CALLS, Made, Session, given, state};
use store::Store;
use words::lent::each_is;
use words::log::put_log;
use words::print;
use words::read::byte;

// The bytes that a call is lent at most: as many as its words can name.
const BYTES: usize = 65535;

// What they are lent with.
const JUNK: u8 = 9;

// What a call answered, as it was noted, and the state that it left.
#[derive(Clone, Copy)]
struct Reached {
    store: Store,
    answers: [u16; NOTE],
}

// The call that the words code, made with these bytes.
fn told(s: Session, words: &[u16; CALL], cells: &mut [u16], bytes: &mut [u8; BYTES]) -> Reached {
    let mut answers = [0u16; NOTE];
    let store = play(s.store, words, cells, bytes, &mut answers).store;
    Reached { store, answers }
}

// A call that is lent no bytes.
fn told_alone(s: Session, words: &[u16; CALL], cells: &mut [u16]) -> Reached {
    let mut bytes = [JUNK; BYTES];
    told(s, words, cells, &mut bytes)
}

// N ORDER USED as the words of an open.
fn opening(given: Store) -> [u16; CALL] {
    let mut words = [0u16; CALL];
    words[1] = given.n as u16;
    words[2] = given.used;
    for (word, place) in words[3..].iter_mut().zip(&given.order.places) {
        *word = *place as u16;
    }
    words
}

// o N ORDER USED
fn open(mut s: Session, text: &[u8], cells: &mut [u16]) -> Session {
    let words = opening(state(text, 2));
    let told = told_alone(s, &words, cells);
    let number = told.answers[0];
    print::text(b"open ");
    if number == 0 {
        print::text(b"accepted");
        s.made = [None; CALLS];
        s.is_open = true;
    } else {
        print::number(b"refused", number);
        s.is_open = false;
    }
    s.counted(told.store, None)
}

// The number by which `play` knows the call of a command.
fn kind(command: u8) -> u16 {
    match command {
        b'k' => 1,
        b'f' => 2,
        b'j' => 3,
        b'c' => 4,
        b'x' => 5,
        b't' => 6,
        b'g' => 8,
        b'p' => 9,
        b'r' => 10,
        b'q' => 11,
        _ => 7,
    }
}

// k V, f I, j CODE A B, c A B C, x A I V, t A BYTES, w A ROW, g A PASS ROW, p A WANTED PASS FIXED ONES as the words of the call.
fn asked(s: Session, text: &[u8], command: u8) -> [u16; CALL] {
    let a = given(s, text, 2);
    let b = given(s, text, a.next);
    let c = given(s, text, b.next);
    let d = given(s, text, c.next);
    let e = given(s, text, d.next);
    let mut words = [0u16; CALL];
    words[0] = kind(command);
    words[1] = a.value;
    words[2] = b.value;
    words[3] = c.value;
    words[4] = d.value;
    words[5] = e.value;
    if command == b'j' {
        words[1] = byte(a.value) as u16;
    }
    words
}

// Whether the store had the node only within other rules, where a call that left so many used records hands it back.
fn is_inner(s: Session, node: u16, used: u16) -> bool {
    2 <= node && s.first(node).is_none() && used == s.store.used
}

// A call that makes a rule.
fn make(s: Session, text: &[u8], cells: &mut [u16], command: u8) -> Session {
    let words = asked(s, text, command);
    let told = told_alone(s, &words, cells);
    let number = told.answers[0];
    if number != 0 {
        print::number(b"refused", number);
        return s.counted(told.store, None);
    }
    let node = told.answers[1];
    let is_inner = is_inner(s, node, told.store.used);
    let after = s.counted(told.store, Some(Made { node, is_inner }));
    print::text(b"rule ");
    after.print_node(node);
    after
}

// An accepted tabulate: the first so many of the bytes that it was lent.
fn table(bytes: &[u8; BYTES], length: u16) {
    print::text(b"table ");
    print::rows(&bytes[..length as usize]);
}

// A refused one: its number, and whether it altered lent bytes.
fn refused_table(number: u16, bytes: &[u8; BYTES]) {
    print::number(b"refused", number);
    if each_is(bytes, &JUNK) {
        print::text(b" bytes kept");
    } else {
        print::text(b" bytes lost");
    }
}

// t A BYTES
fn tabulate(s: Session, text: &[u8], cells: &mut [u16]) -> Session {
    let words = asked(s, text, b't');
    let mut bytes = [JUNK; BYTES];
    let told = told(s, &words, cells, &mut bytes);
    let number = told.answers[0];
    if number == 0 {
        table(&bytes, words[2]);
    } else {
        refused_table(number, &bytes);
    }
    s.counted(told.store, None)
}

// w A ROW, or g A PASS ROW, which has a pass rule
fn walk(s: Session, text: &[u8], cells: &mut [u16], command: u8) -> Session {
    let words = asked(s, text, command);
    let told = told_alone(s, &words, cells);
    let number = told.answers[0];
    if number == 0 {
        print::number(b"answer", told.answers[1]);
        print::number(b" asked", told.answers[2]);
        print::number(b" number", told.answers[3]);
    } else {
        print::number(b"refused", number);
    }
    s.counted(told.store, None)
}

// p A WANTED PASS FIXED ONES
fn provoke(s: Session, text: &[u8], cells: &mut [u16]) -> Session {
    let words = asked(s, text, b'p');
    let told = told_alone(s, &words, cells);
    let number = told.answers[0];
    if number == 0 {
        print::number(b"row", told.answers[1]);
    } else {
        print::number(b"refused", number);
    }
    s.counted(told.store, None)
}

// A tally that was noted.
fn tally(answers: [u16; NOTE]) {
    print::text(b"tally");
    print::numbers(&answers[1..NOTE]);
}

// r A ODD ROW TIMES .., or q A PASS ODD ROW TIMES .., which has a pass rule
fn replay(s: Session, text: &[u8], cells: &mut [u16], command: u8) -> Session {
    let a = given(s, text, 2);
    let mut bytes = [JUNK; BYTES];
    let mut words = [0u16; CALL];
    words[0] = kind(command);
    words[1] = a.value;
    if command == b'r' {
        words[2] = put_log(text, a.next, &mut bytes, 0) as u16;
    } else {
        let b = given(s, text, a.next);
        words[2] = b.value;
        words[3] = put_log(text, b.next, &mut bytes, 0) as u16;
    }
    let told = told(s, &words, cells, &mut bytes);
    let number = told.answers[0];
    if number == 0 {
        tally(told.answers);
    } else {
        print::number(b"refused", number);
    }
    s.counted(told.store, None)
}

// The call of a command, and its line of output but for the end.
fn played(s: Session, text: &[u8], cells: &mut [u16], command: u8) -> Session {
    match command {
        b'o' => open(s, text, cells),
        b't' => tabulate(s, text, cells),
        b'w' | b'g' => walk(s, text, cells, command),
        b'p' => provoke(s, text, cells),
        b'r' | b'q' => replay(s, text, cells, command),
        b'k' | b'f' | b'j' | b'c' | b'x' => make(s, text, cells, command),
        _ => {
            print::unknown();
            s
        }
    }
}

// The call on a line, and its line of output.
pub fn call(s: Session, text: &[u8], cells: &mut [u16], command: u8) -> Session {
    let after = played(s, text, cells, command);
    after.print_used();
    after
}
