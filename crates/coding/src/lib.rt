// The words that code one of the store's calls (document 01, "The book beside the store"): what is asked, or for open the state that it is given.
#![tactic(auto)]

ghost use Rattle.std.specs.Prelude.{◌≡◌, ◌+◌, ◌%◌, ◌≤◌, ◌<◌, length};
ghost use Rattle.store.specs.State.{state_of};
ghost use Rattle.coding.specs.Coded.{call_words, query_by, request_by, request_at, byte_at, given_at};

use asking::{Making, Query, Request};
use rule::{Node, Order};
use store::Store;

// The words of one call.
pub const CALL: usize = 13;

// The last eight bits of a word.
fn byte(word: u16) -> u8
    ensures { result ≡ word % 256 }
{
    (word % 256) as u8
}

// The call of a kind that makes no rule, with its arguments.
fn query_by(kind: u16, x: u16, y: u16, z: u16, u: u16, v: u16) -> Query
    ensures { result ≡ query_by kind x y z u v }
{
    let rule = Node { number: x };
    match kind {
        6 => Query::Tabulate { rule, length: y },
        8 => Query::Walk {
            rule,
            pass: Some(Node { number: y }),
            row: z,
        },
        9 => Query::Provoke {
            rule,
            wanted: y,
            pass: Node { number: z },
            fixed: u,
            ones: v,
        },
        10 => Query::Replay {
            rule,
            pass: None,
            length: y,
        },
        11 => Query::Replay {
            rule,
            pass: Some(Node { number: y }),
            length: z,
        },
        _ => Query::Walk {
            rule,
            pass: None,
            row: y,
        },
    }
}

// The call of a kind, with its arguments.
fn request_by(kind: u16, x: u16, y: u16, z: u16, u: u16, v: u16) -> Request
    ensures { result ≡ request_by kind x y z u v }
{
    let code = byte(x);
    match kind {
        0 => Request::Open,
        1 => Request::Constant(x),
        2 => Request::Make(Making::Flag(x)),
        3 => Request::Make(Making::Join {
            code,
            first: Node { number: y },
            second: Node { number: z },
        }),
        4 => Request::Make(Making::Choose {
            first: Node { number: x },
            second: Node { number: y },
            third: Node { number: z },
        }),
        5 => Request::Make(Making::Fix {
            rule: Node { number: x },
            flag: y,
            value: z,
        }),
        _ => Request::Ask(query_by(kind, x, y, z, u, v)),
    }
}

// The call that is coded from a word on.
pub fn request_at(words: &[u16], at: usize) -> Request
    requires { at + call_words ≤ length words.now }
    ensures { result ≡ request_at words.now at }
{
    request_by(
        words[at],
        words[at + 1],
        words[at + 2],
        words[at + 3],
        words[at + 4],
        words[at + 5],
    )
}

// The last eight bits of the word at a place.
fn byte_at(words: &[u16], at: usize) -> u8
    requires { at < length words.now }
    ensures { result ≡ byte_at words.now at }
{
    byte(words[at])
}

// The state that open is given, from a word on.
pub fn given_at(words: &[u16], at: usize) -> Store
    requires { at + call_words ≤ length words.now }
    ensures { state_of result ≡ given_at words.now at }
{
    let places = [
        byte_at(words, at + 3),
        byte_at(words, at + 4),
        byte_at(words, at + 5),
        byte_at(words, at + 6),
        byte_at(words, at + 7),
        byte_at(words, at + 8),
        byte_at(words, at + 9),
        byte_at(words, at + 10),
        byte_at(words, at + 11),
        byte_at(words, at + 12),
    ];
    Store {
        n: byte_at(words, at + 1),
        order: Order { places },
        used: words[at + 2],
    }
}
