// The store's calls: the state goes in as n, the order and the used number, and the used number comes back before the node.
ghost use Rattle.std.specs.Prelude.{◌≡◌};
ghost use Rattle.rule.specs.Reply.{number_of, value_at};
ghost use Rattle.rule.specs.Answers.{made_reply};
ghost use Rattle.rule.specs.Calls.{Join};
ghost use Rattle.exports.specs.Word.{word, CodesState};

use crate::values::answer;
use rule::{Node, Order};
use store::{Kept, Store};

// What a call that makes a rule hands back.
fn stored(kept: Kept<Node>) -> u64
    ensures { result ≡ word (number_of (made_reply kept.answer)) kept.store.used (value_at (made_reply kept.answer) 0) 0 }
{
    let used = kept.store.used;
    match kept.answer {
        Ok(node) => answer(0, used, node.number),
        Err(refusal) => answer(refusal.number(), used, 0),
    }
}

// Join: the used number and the node.
#[unsafe(no_mangle)]
pub extern "C" fn engine_join(
    n: u8,
    places: &[u8; 10],
    cells: &mut [u16],
    used: u16,
    code: u8,
    first: u16,
    second: u16,
) -> u64
    ensures { CodesState (λ a s. Join (record { n = n; places = places.now; used = used }) cells.old code first second a s cells.new) result }
{
    let order = Order { places: *places };
    let store = Store { n, order, used };
    stored(store.join(cells, code, Node { number: first }, Node { number: second }))
}
