// The words of a line.
use crate::session::Session;
use store::Store;
use words::read::{Word, behind, byte, number, order};

// The number at a place; of `@j` the node that call j handed back, a number that is no node's where it handed none back.
pub fn given(s: Session, text: &[u8], at: usize) -> Word {
    if text.get(at) != Some(&b'@') {
        return number(text, at);
    }
    let call = number(text, at + 1);
    Word {
        value: s.node(call.value as usize).unwrap_or(u16::MAX),
        next: call.next,
    }
}

// N ORDER USED
pub fn state(text: &[u8], at: usize) -> Store {
    let n = number(text, at);
    let used = number(text, behind(text, n.next));
    Store {
        n: byte(n.value),
        order: order(text, n.next),
        used: used.value,
    }
}
