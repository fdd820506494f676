// A node by its number. Its two end nodes are fixed values, known by name.
#[derive(Clone, Copy)]
pub struct Node {
    pub number: u16,
}

impl Node {
    // Node 0 is "no".
    pub const NO: Node = Node { number: 0 };

    // Node 1 is "yes".
    pub const YES: Node = Node { number: 1 };
}
