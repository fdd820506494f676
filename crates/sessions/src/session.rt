ghost use Rattle.std.specs.Prelude.{IfSome, ◌<◌};

use store::Store;
use words::print;

// The calls of a list at most.
pub const CALLS: usize = 40;

// A node that a call handed back, and whether the call was the first to hand back one that the store had only within other rules.
#[derive(Clone, Copy)]
pub struct Made {
    pub node: u16,
    pub is_inner: bool,
}

// A list as far as it was played.
#[derive(Clone, Copy)]
pub struct Session {
    // The state as the last call left it.
    pub store: Store,
    // The lent cells.
    pub lent: usize,
    // Whether the last open was accepted.
    pub is_open: bool,
    // The calls so far.
    pub count: usize,
    // What each handed back, if no accepted open came after it.
    pub made: [Option<Made>; CALLS],
}

impl Session {
    // One more call: the state that it left, and the node that it handed back.
    pub fn counted(mut self, store: Store, made: Option<Made>) -> Session {
        self.store = store;
        let at = self.count;
        if at < CALLS {
            self.made[at] = made;
            self.count = at + 1;
        } else {
            print::too_long();
        }
        self
    }

    // The node that a call handed back.
    pub fn node(self, call: usize) -> Option<u16> {
        if call < CALLS {
            self.made[call].map(|made| made.node)
        } else {
            None
        }
    }

    // The first call that handed back a node.
    pub fn first(self, node: u16) -> Option<usize>
        ensures { IfSome result (λ call. call < 40) }
    {
        self.made
            .iter()
            .position(|made| made.is_some_and(|made| made.node == node))
    }

    // A node as a call names it: `inner` by the one just counted, else `@j`; its number where that is fixed.
    pub fn print_node(self, node: u16) {
        for (call, made) in self.made.iter().enumerate() {
            if let Some(made) = made {
                if made.node == node {
                    return self.print_made(call, *made);
                }
            }
        }
        print::value(node);
    }

    // What a call handed back, the first to do so.
    fn print_made(self, call: usize, made: Made) {
        if !made.is_inner {
            print::value(made.node);
        } else if call.saturating_add(1) == self.count {
            print::text(b"inner");
        } else {
            print::text(b"@");
            print::size(call);
        }
    }

    // The end of a line: the used number of the state.
    pub fn print_used(self) {
        print::number(b" used", self.store.used);
        print::line_end();
    }
}
