// A log's snapshots, two bytes each, one after the other.
ghost use Rattle.std.specs.Prelude.{◌≡◌, ◌≤◌, length};
ghost use Rattle.std.proofs.Math.Option.{some};
ghost use Rattle.rule.specs.Answers.{test_number};
ghost use Rattle.rule.specs.Log.{snapshots, played};
ghost use Rattle.rule.specs.Refusals.{refusal, most_log, log_rows};
ghost use Rattle.rule.specs.Walk.{walk, flags_asked};
ghost use Rattle.walking.specs.Walk.{Walkable};
ghost use Rattle.tallying.specs.Tally.{tally_for};

use cursor::two_at;
use rule::Refusal;
use tallying::{Tally, ticked};
use walking::{descend, test_row};

// The bytes of the longest log: 32,767 snapshots.
pub const MOST_LOG: usize = 65534;

// The tests of a log that is to be played: 16, then for each snapshot 9 and 14.
pub fn test_log(n: u8, cells: &[u16], used: u16, pass: u16, log: &[u8]) -> Result<(), Refusal>
    requires { (n ≤ 10) × Walkable cells.now used pass }
    ensures { test_number result ≡ refusal (log_rows n cells.now (some pass) log.now) }
{
    if log.len() % 2 == 1 {
        return Err(Refusal::LogLength);
    }
    if MOST_LOG < log.len() {
        return Err(Refusal::LogLength);
    }
    for i in 0..log.len() / 2 {
        let row = two_at(log, i * 2);
        test_row(n, cells, used, pass, row)?;
    }
    Ok(())
}

// The tally of a log's snapshots.
pub fn tally_of(cells: &[u16], used: u16, node: u16, log: &[u8]) -> Tally
    requires { Walkable cells.now used node × (length log.now ≤ most_log) }
    ensures { result ≡ tally_for (played (walk cells.now node) (flags_asked cells.now node) (snapshots log.now)) }
{
    let snapshots = log.len() / 2;
    let mut tally = Tally::ZEROS;
    let mut last = 0u8;
    for i in 0..snapshots {
        let row = two_at(log, i * 2);
        let descent = descend(cells, used, node, row);
        let answer = descent.end as u8;
        tally = ticked(tally, last, answer, descent.asked);
        last = answer;
    }
    tally
}
