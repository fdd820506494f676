// Whether a walk takes a row: it is there, and the pass rule allows it (document 02, request 5).
ghost use Rattle.std.specs.Prelude.{◌≡◌, ◌≤◌};
ghost use Rattle.std.proofs.Math.Option.{some};
ghost use Rattle.rule.specs.Answers.{test_number};
ghost use Rattle.rule.specs.Pass.{pass_of};
ghost use Rattle.rule.specs.Refusals.{refusal, row_rows};
ghost use Rattle.walking.specs.Walk.{Walkable};
ghost use Rattle.walking.specs.Pass.{pass_node};

use crate::steps::descend;
use rule::{Node, Refusal};

// The node that is asked whether a row may happen: "yes" where there is no pass rule, since it forbids no row.
pub fn pass_node(pass: Option<Node>) -> u16
    ensures { result ≡ pass_node (pass_of pass) }
{
    pass.unwrap_or(Node::YES).number
}

// The tests of a row that is to be walked: 9, then 14.
pub fn test_row(n: u8, cells: &[u16], used: u16, pass: u16, row: u16) -> Result<(), Refusal>
    requires { (n ≤ 10) × Walkable cells.now used pass }
    ensures { test_number result ≡ refusal (row_rows n cells.now (some pass) row) }
{
    if arguments::row_count(n) <= row as usize {
        return Err(Refusal::Argument);
    }
    let passing = descend(cells, used, pass, row);
    if passing.end == 0 {
        return Err(Refusal::ForbiddenRow);
    }
    Ok(())
}
