// One step down from a node.
ghost use Rattle.std.specs.Prelude.{◌≡◌, ◌+◌, ◌≤◌, ◌<◌};
ghost use Rattle.rule.specs.Cells.{room};
ghost use Rattle.theory.specs.Child.{child};
ghost use Rattle.theory.specs.Level.{level_of};
ghost use Rattle.apply.specs.Step.{Stands, asks_same, earlier};

use levels::Levels;

// The level of a node: that of the flag that it asks, n for an end node.
#[tactic(auto, unfolding(theory::specs::Level::level_of))]
pub fn level_of(levels: Levels, cells: &[u16], m: u16) -> u8
    requires { Stands levels cells.now m }
    ensures { result ≡ level_of levels.n levels.order.places cells.now m }
{
    if m < 2 {
        return levels.n;
    }
    levels.level(cells::flag_at(cells, m - 2))
}

// Whether two nodes are records that ask one flag.
#[tactic(auto, unfolding(crate::specs::Step::asks_same))]
fn asks_same(cells: &[u16], f: u16, g: u16) -> bool
    requires { (f ≤ room cells.now + 1) × (g ≤ room cells.now + 1) }
    ensures { result ≡ asks_same cells.now f g }
{
    2 <= f && 2 <= g && cells::flag_at(cells, f - 2) == cells::flag_at(cells, g - 2)
}

// The one of two nodes that stands at the earlier level, the first where they stand at one. Where both ask one flag no level is looked up.
#[tactic(auto, unfolding(crate::specs::Step::earlier, crate::specs::Step::asks_same, theory::specs::Level::level_of))]
pub fn earlier(levels: Levels, cells: &[u16], f: u16, g: u16) -> u16
    requires { Stands levels cells.now f × Stands levels cells.now g }
    ensures { result ≡ earlier levels.n levels.order.places cells.now f g }
{
    if asks_same(cells, f, g) || level_of(levels, cells, f) <= level_of(levels, cells, g) {
        f
    } else {
        g
    }
}

// The nodes that a node comes to where a flag is 0 and where it is 1.
#[derive(Clone, Copy)]
pub struct Branches {
    pub no: u16,
    pub yes: u16,
}

// The nodes that m comes to by a flag: its children if it asks the flag, else itself. Its fields are read before the test, which then needs no jump.
#[tactic(auto, unfolding(theory::specs::Child::child))]
pub fn both_branches(cells: &[u16], flag: u16, m: u16) -> Branches
    requires { m ≤ room cells.now + 1 }
    ensures { (result.no ≡ child cells.now flag 0 m) × (result.yes ≡ child cells.now flag 1 m) }
{
    if m < 2 {
        return Branches { no: m, yes: m };
    }
    let asked = cells::flag_at(cells, m - 2);
    let no = cells::low_at(cells, m - 2);
    let yes = cells::high_at(cells, m - 2);
    if asked == flag {
        return Branches { no, yes };
    }
    Branches { no: m, yes: m }
}

// The node that m comes to where a flag has a value.
#[tactic(auto, unfolding(theory::specs::Child::child))]
pub fn branch(cells: &[u16], flag: u16, value: u16, m: u16) -> u16
    requires { m ≤ room cells.now + 1 }
    ensures { result ≡ child cells.now flag value m }
{
    let by = both_branches(cells, flag, m);
    if value == 0 {
        return by.no;
    }
    by.yes
}
