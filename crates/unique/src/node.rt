ghost use Rattle.std.specs.Prelude.{◌≤◌};
ghost use Rattle.rule.specs.Cells.{room};
ghost use Rattle.record_index.specs.Index.{links, Indexed};
ghost use Rattle.unique.specs.Node.{found_reply, MakesNode};

// The used records after a search, beside the number of the node that was found: None where there is no room for its record.
#[derive(Clone, Copy)]
pub struct Grown {
    pub used: u16,
    pub found: Option<u16>,
}

// The node that asks a flag and has these two children, which is the child itself where they are one.
pub fn make(
    cells: &mut [u16],
    index: &mut [u16; record_index::INDEX],
    used: u16,
    flag: u16,
    low: u16,
    high: u16,
) -> Grown
    requires { (used ≤ room cells.old) × (room cells.old ≤ links) × Indexed cells.old used index.old }
    ensures { MakesNode cells.old used flag low high result.used (found_reply result.found) cells.new
        × Indexed cells.new result.used index.new }
{
    if low == high {
        return Grown {
            used,
            found: Some(low),
        };
    }
    if let Some(k) = record_index::find(cells, index, used, flag, low, high) {
        return Grown {
            used,
            found: Some(k + 2),
        };
    }
    if cells::room(cells) <= used as usize {
        return Grown { used, found: None };
    }
    cells::put(cells, used, flag, low, high);
    record_index::enter(cells, index, used);
    Grown {
        used: used + 1,
        found: Some(used + 2),
    }
}
