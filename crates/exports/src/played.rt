// Replay.
ghost use Rattle.std.proofs.Math.Option.{none};
ghost use Rattle.rule.specs.Calls.{Replays};
ghost use Rattle.exports.specs.Word.{CodesLoaded};

use crate::values::{answer, tallied};
use rule::{Node, Order};

// Replay without a pass rule: how often each flag was asked goes into ten lent cells, which stay as they are where it is refused; snapshots played, yes answers
// and changes.
#[unsafe(no_mangle)]
pub extern "C" fn engine_replay(
    n: u8,
    places: &[u8; 10],
    cells: &[u16],
    used: u16,
    node: u16,
    log: &[u8],
    asked: &mut [u16; 10],
) -> u64
    ensures { CodesLoaded (λ a. Replays n places.now cells.now used node none log.now a) asked.old result asked.new }
{
    match replaying::replay(
        n,
        Order { places: *places },
        cells,
        used,
        Node { number: node },
        None,
        log,
    ) {
        Ok(tally) => {
            let counts = tally.asked;
            *asked = counts;
            tallied(tally)
        }
        Err(refusal) => answer(refusal.number(), 0, 0),
    }
}
