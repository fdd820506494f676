// The calls that make a rule: constant, flag, join, choose and fix.
ghost use Rattle.rule.specs.Answers.{made_reply};
ghost use Rattle.rule.specs.Calls.{Constant, Flag, Join, Choose, Fix};
ghost use Rattle.store.specs.State.{state_of};

use crate::state::{Kept, Store};
use rule::Node;

impl Store {
    // Constant: the end node of a value; or why there is none: 1, 4, 5, 6, then 9.
    pub fn constant(self, cells: &mut [u16], value: u16) -> Kept<Node>
        ensures { Constant (state_of self) cells.old value (made_reply result.answer) (state_of result.store) cells.new }
    {
        let answer = making::constant(self.n, self.order, cells, self.used, value);
        Kept {
            store: self,
            answer,
        }
    }

    // Flag: the node of the rule that is one flag; or why there is none: 1, 4, 5, 6, 9, then 10.
    pub fn flag(mut self, cells: &mut [u16], i: u16) -> Kept<Node>
        ensures { Flag (state_of self) cells.old i (made_reply result.answer) (state_of result.store) cells.new }
    {
        let outcome = making::flag(self.n, self.order, cells, self.used, i);
        self.used = outcome.used;
        Kept {
            store: self,
            answer: outcome.answer,
        }
    }

    // Join: the node of two rules joined by an operator; or why there is none: 1, 4, 5, 6, 7, 9, then 10.
    pub fn join(mut self, cells: &mut [u16], code: u8, first: Node, second: Node) -> Kept<Node>
        ensures { Join (state_of self) cells.old code first.number second.number (made_reply result.answer) (state_of result.store) cells.new }
    {
        let outcome = making::join(self.n, self.order, cells, self.used, code, first, second);
        self.used = outcome.used;
        Kept {
            store: self,
            answer: outcome.answer,
        }
    }

    // Choose: the node of the second rule where the first says yes, else of the third; or why there is none: 1, 4, 5, 6, 7, then 10.
    pub fn choose(mut self, cells: &mut [u16], first: Node, second: Node, third: Node) -> Kept<Node>
        ensures { Choose (state_of self) cells.old first.number second.number third.number (made_reply result.answer) (state_of result.store) cells.new }
    {
        let outcome = making::choose(self.n, self.order, cells, self.used, first, second, third);
        self.used = outcome.used;
        Kept {
            store: self,
            answer: outcome.answer,
        }
    }

    // Fix: the node of a rule with a flag fixed to a value; or why there is none: 1, 4, 5, 6, 7, 9, then 10.
    pub fn fix(mut self, cells: &mut [u16], rule: Node, i: u16, value: u16) -> Kept<Node>
        ensures { Fix (state_of self) cells.old rule.number i value (made_reply result.answer) (state_of result.store) cells.new }
    {
        let outcome = making::fix(self.n, self.order, cells, self.used, rule, i, value);
        self.used = outcome.used;
        Kept {
            store: self,
            answer: outcome.answer,
        }
    }
}
