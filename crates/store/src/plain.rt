// Open, and the calls that make no rule: tabulate, walk, provoke and replay.
ghost use Rattle.rule.specs.Answers.{done_reply, said_reply, number_reply};
ghost use Rattle.rule.specs.Calls.{Open, Tabulate, Walk, Provoke, Replay};
ghost use Rattle.rule.specs.Pass.{pass_of};
ghost use Rattle.tallying.specs.Tally.{tallied_reply};
ghost use Rattle.store.specs.State.{state_of};

use crate::state::{Kept, Store};
use rule::{Node, Said};
use tallying::Tally;

impl Store {
    // Open: an empty store of this number of flags and this order, all cells cleared; or why there is none: 1, 4, then 5.
    pub fn open(mut self, cells: &mut [u16]) -> Kept<()>
        ensures { Open (state_of self) cells.old (done_reply result.answer) (state_of result.store) cells.new }
    {
        if let Err(refusal) = refusing::test_open(self.n, self.order, cells) {
            return Kept {
                store: self,
                answer: Err(refusal),
            };
        }
        cells::clear_from(cells, 0);
        self.used = 0;
        Kept {
            store: self,
            answer: Ok(()),
        }
    }

    // Tabulate: the table of a rule in lent bytes; or why there is none: 1, 2, 4, 5, 6, then 7.
    pub fn tabulate(self, cells: &[u16], rule: Node, bytes: &mut [u8]) -> Kept<()>
        ensures { Tabulate (state_of self) cells.now rule.number bytes.old (done_reply result.answer) (state_of result.store) bytes.new }
    {
        let answer = walking::tabulate(self.n, self.order, cells, self.used, rule, bytes);
        Kept {
            store: self,
            answer,
        }
    }

    // Walk: the answer of a rule in a row that its pass rule, if it has one, allows, the set of the flags asked and their number; or why there is none: 1, 4, 5,
    // 6, 7 for the rule, 7 for the pass rule, 9, then 14.
    pub fn walk(self, cells: &[u16], rule: Node, pass: Option<Node>, row: u16) -> Kept<Said>
        ensures { Walk (state_of self) cells.now rule.number (pass_of pass) row (said_reply result.answer) (state_of result.store) }
    {
        let answer = walking::walk(self.n, self.order, cells, self.used, rule, pass, row);
        Kept {
            store: self,
            answer,
        }
    }

    // Provoke: the lowest row that the pass rule allows, that has the fixed values and gives the wanted answer; or why there is none: 1, 4, 5, 6, 7 for the rule,
    // 7 for the pass rule, 9, then 15.
    pub fn provoke(
        self,
        cells: &[u16],
        rule: Node,
        wanted: u16,
        pass: Node,
        fixed: u16,
        ones: u16,
    ) -> Kept<u16>
        ensures { Provoke (state_of self) cells.now rule.number wanted pass.number fixed ones (number_reply result.answer) (state_of result.store) }
    {
        let answer = provoking::provoke(
            self.n, self.order, cells, self.used, rule, wanted, pass, fixed, ones,
        );
        Kept {
            store: self,
            answer,
        }
    }

    // Replay: the tally of a log that is played through a rule under a pass rule, if it has one; or why there is none: 1, 4, 5, 6, 7 for the rule, 7 for the
    // pass rule, 16, then for each snapshot 9 and 14.
    pub fn replay(self, cells: &[u16], rule: Node, pass: Option<Node>, log: &[u8]) -> Kept<Tally>
        ensures { Replay (state_of self) cells.now rule.number (pass_of pass) log.now (tallied_reply result.answer) (state_of result.store) }
    {
        let answer = replaying::replay(self.n, self.order, cells, self.used, rule, pass, log);
        Kept {
            store: self,
            answer,
        }
    }
}
