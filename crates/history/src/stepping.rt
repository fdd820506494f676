ghost use Rattle.rule.specs.Answers.{made_reply};
ghost use Rattle.rule.specs.Calls.{Make};
ghost use Rattle.store.specs.State.{state_of};
ghost use Rattle.asking.specs.Request.{making_of};
ghost use Rattle.history.specs.Step.{Steps};

use asking::{Answer, Making, Reached, Request, answered, ask};
use rule::Node;
use store::{Kept, Store};

// Make one call that makes a rule with records.
fn make(store: Store, cells: &mut [u16], making: Making) -> Kept<Node>
    ensures { Make (state_of store) cells.old (making_of making) (made_reply result.answer) (state_of result.store) cells.new }
{
    match making {
        Making::Flag(i) => store.flag(cells, i),
        Making::Join {
            code,
            first,
            second,
        } => store.join(cells, code, first, second),
        Making::Choose {
            first,
            second,
            third,
        } => store.choose(cells, first, second, third),
        Making::Fix { rule, flag, value } => store.fix(cells, rule, flag, value),
    }
}

// Make one call: open is given the state `given`, any other the state `store`.
pub fn step(
    store: Store,
    given: Store,
    request: Request,
    cells: &mut [u16],
    bytes: &mut [u8],
) -> Reached
    ensures { Steps request (state_of store) (state_of given) cells.old bytes.old result cells.new bytes.new }
{
    match request {
        Request::Open => answered(given.open(cells), Answer::Done),
        Request::Constant(value) => answered(store.constant(cells, value), Answer::Made),
        Request::Make(making) => answered(make(store, cells, making), Answer::Made),
        Request::Ask(query) => ask(store, cells, query, bytes),
    }
}
