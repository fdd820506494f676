ghost use Rattle.std.specs.Prelude.{◌≡◌, true, ◌^◌, ◌≤◌, length};
ghost use Rattle.rule.specs.Table.{fit_rows};
ghost use Rattle.tallying.specs.Tally.{tallied_reply};
ghost use Rattle.rig_tally.specs.Plays.{Plays};

use rule::{Order, Refusal};
use tallying::Tally;

// A log played through a table, which is drawn in the rising order first. The cells hold every diagram of ten flags, so build does not refuse it.
pub fn play(n: u8, table: &[u8], log: &[u8]) -> Result<Tally, Refusal>
    requires { (n ≤ 10) × (length table.now ≡ 2 ^ n) × (fit_rows table.now ≡ true) }
    ensures { Plays n table.now log.now (tallied_reply result) }
{
    let mut cells = [0u16; cells::MOST];
    let order = Order::rising(n);
    let drawn = building::build(n, table, order, &mut cells)?;
    replaying::replay(n, order, &cells, drawn.nodes, drawn.root, None, log)
}
