ghost use Rattle.std.specs.Prelude.{◌≡◌};
ghost use Rattle.rule.specs.Order.{flags};
ghost use Rattle.rule.specs.Sound.{asks_later};
ghost use Rattle.soundness.specs.Record.{fit_record, Child, Next};

use levels::Levels;

// Whether node m is an end node or asks a flag later in the order than v.
#[tactic(auto, unfolding(rule::specs::Sound::asks_later))]
fn asks_later(levels: Levels, cells: &[u16], v: u16, m: u16) -> bool
    requires { Child levels cells.now v m }
    ensures { result ≡ asks_later (flags levels.n levels.order.places) cells.now v m }
{
    m < 2 || levels.level(v) < levels.level(cells::flag_at(cells, m - 2))
}

// Whether record k is sound by itself and beside the records before it, which are sound and entered in the index.
#[tactic(auto, using(crate::proofs::Parts::found_new), unfolding(crate::specs::Record::fit_record))]
pub fn fit_record(levels: Levels, cells: &[u16], index: &[u16; record_index::INDEX], k: u16) -> bool
    requires { Next levels cells.now k index.now }
    ensures { result ≡ fit_record levels.n (flags levels.n levels.order.places) cells.now k }
{
    let flag = cells::flag_at(cells, k);
    let low = cells::low_at(cells, k);
    let high = cells::high_at(cells, k);
    let node = k + 2;
    // It is new where the records before it have none that is the same.
    flag < levels.n as u16
        && low != high
        && low < node
        && high < node
        && asks_later(levels, cells, flag, low)
        && asks_later(levels, cells, flag, high)
        && record_index::find(cells, index, k, flag, low, high).is_none()
}
