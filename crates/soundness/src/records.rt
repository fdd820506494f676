ghost use Rattle.std.specs.Prelude.{◌≡◌, true, ◌≤◌};
ghost use Rattle.rule.specs.Bits.{below};
ghost use Rattle.rule.specs.Tests.{each};
ghost use Rattle.rule.specs.Order.{flags};
ghost use Rattle.rule.specs.Cells.{most_records, room};
ghost use Rattle.rule.specs.Sound.{sound};
ghost use Rattle.record_index.specs.Index.{empty_index, Indexed};
ghost use Rattle.soundness.specs.Record.{fit_record};

use crate::record::fit_record;
use levels::Levels;
use rule::Order;

// Whether each used record is sound. All of them are then entered in the index.
fn all_fit(levels: Levels, cells: &[u16], used: u16, index: &mut [u16; record_index::INDEX]) -> bool
    requires { (used ≤ room cells.now) × (room cells.now ≤ most_records) × (index.old ≡ empty_index) }
    ensures { (result ≡ each (fit_record levels.n (flags levels.n levels.order.places) cells.now) (below used))
        × (result ≡ true → Indexed cells.now used index.new) }
{
    for k in 0..used {
        if !fit_record(levels, cells, index, k) {
            return false;
        }
        record_index::enter(cells, index, k);
    }
    true
}

// Whether the cells are sound, of no more used records than they hold. Those are then entered in the index.
#[tactic(auto, using(crate::proofs::Parts::sound_by))]
pub fn sound(
    n: u8,
    order: Order,
    cells: &[u16],
    used: u16,
    index: &mut [u16; record_index::INDEX],
) -> bool
    requires { (n ≤ 10) × (room cells.now ≤ most_records) × (index.old ≡ empty_index) }
    ensures { (result ≡ sound n order.places cells.now used) × (result ≡ true → Indexed cells.now used index.new) }
{
    used as usize <= cells::room(cells)
        && all_fit(Levels::turn(n, order), cells, used, index)
        && cells::rest_clear(cells, used)
}
