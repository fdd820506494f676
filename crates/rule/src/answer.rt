// What the calls hand back where they are accepted. Each call answers a Result: these values, or the Refusal.
// A store hands its state back beside the answer: see the crate store.
use crate::node::Node;
use crate::order::Order;

// Build: the node count and the root.
#[derive(Clone, Copy)]
pub struct Drawn {
    pub nodes: u16,
    pub root: Node,
}

// Walk: the answer, 0 or 1, the set of the flags asked (bit v for flag v), and their number.
#[derive(Clone, Copy)]
pub struct Said {
    pub answer: u8,
    pub asked: u16,
    pub count: u8,
}

// Pack: the order, beside the node count and the root.
#[derive(Clone, Copy)]
pub struct Packed {
    pub order: Order,
    pub drawn: Drawn,
}

// Read: n, the order, the record count and the root.
#[derive(Clone, Copy)]
pub struct Loaded {
    pub n: u8,
    pub order: Order,
    pub records: u16,
    pub root: Node,
}
