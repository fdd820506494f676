use crate::queries::Query;
use rule::Node;

// A call that makes a rule with records, with its arguments.
#[derive(Clone, Copy)]
pub enum Making {
    Flag(u16),
    Join {
        code: u8,
        first: Node,
        second: Node,
    },
    Choose {
        first: Node,
        second: Node,
        third: Node,
    },
    Fix {
        rule: Node,
        flag: u16,
        value: u16,
    },
}

// One of the ten calls with its arguments; the state that open is given stands beside it.
#[derive(Clone, Copy)]
pub enum Request {
    Open,
    Constant(u16),
    Make(Making),
    Ask(Query),
}
