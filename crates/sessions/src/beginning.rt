// The start of a list.
use crate::session::{CALLS, Session};
use rule::Order;
use store::Store;
use words::read::number;

// What the cells hold at the start.
const JUNK: u16 = 7;

// A state of zeros, and so many lent cells.
pub fn fresh(lent: usize) -> Session {
    let store = Store {
        n: 0,
        order: Order::ZEROS,
        used: 0,
    };
    Session {
        store,
        lent,
        is_open: false,
        count: 0,
        made: [None; CALLS],
    }
}

// list CELLS
pub fn begin(text: &[u8], cells: &mut [u16]) -> Session {
    cells.fill(JUNK);
    let lent = number(text, 5);
    fresh(lent.value as usize)
}
