// A call on a diagram, in the words of a line.
use crate::read::{byte, bytes, number};
use rule::{Node, Order};

// What the call is given beside its cells, and the place behind these words.
#[derive(Clone, Copy)]
pub struct Asked {
    pub n: u8,
    pub order: Order,
    pub used: u16,
    pub root: Node,
    // How many bytes it is lent.
    pub lent: usize,
    pub next: usize,
}

// N ORDER USED ROOT BYTES
pub fn asked_at(text: &[u8], at: usize) -> Asked {
    let n = number(text, at);
    let mut places = [0u8; 10];
    let order = bytes(text, n.next, &mut places);
    let used = number(text, order.next);
    let root = number(text, used.next);
    let lent = number(text, root.next);
    Asked {
        n: byte(n.value),
        order: Order { places },
        used: used.value,
        root: Node { number: root.value },
        lent: lent.value as usize,
        next: lent.next,
    }
}
