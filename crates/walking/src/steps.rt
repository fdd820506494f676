ghost use Rattle.std.specs.Prelude.{◌≡◌, ◌<◌, length};
ghost use Rattle.rule.specs.Sets.{flag_set};
ghost use Rattle.rule.specs.Cells.{room};
ghost use Rattle.rule.specs.Walk.{walk, flags_asked};
ghost use Rattle.theory.specs.Child.{child_at};
ghost use Rattle.walking.specs.Walk.{Walkable};

// Where a walk comes to: the end node, the set of the flags asked on the way, and their number.
#[derive(Clone, Copy)]
pub struct Descent {
    pub end: u16,
    pub asked: u16,
    pub count: u16,
}

// The child of record k for a value of its flag.
fn child(cells: &[u16], k: u16, value: u16) -> u16
    requires { k < room cells.now }
    ensures { result ≡ child_at cells.now k value }
{
    if value == 0 {
        cells::low_at(cells, k)
    } else {
        cells::high_at(cells, k)
    }
}

// The walk from a node: low or high by the row until an end node.
pub fn descend(cells: &[u16], used: u16, node: u16, row: u16) -> Descent
    requires { Walkable cells.now used node }
    ensures end_value { result.end ≡ walk cells.now node row }
    ensures asked_value { result.asked ≡ flag_set (flags_asked cells.now node row) }
    ensures count_value { result.count ≡ length (flags_asked cells.now node row) }
{
    let mut m = node;
    let mut asked: u16 = 0;
    let mut count: u16 = 0;
    while 2 <= m {
        let k = m - 2;
        let flag = cells::flag_at(cells, k);
        let value = bits::bit(row, flag);
        m = child(cells, k, value);
        asked = bits::set_bit(asked, flag, 1);
        count += 1;
    }
    Descent {
        end: m,
        asked,
        count,
    }
}
