ghost use Rattle.std.specs.Prelude.{◌<◌};
ghost use Rattle.rule.specs.Results.{made_in, fix};
ghost use Rattle.apply.specs.Grow.{Ready, From, Comes};

use apply::{both_branches, branch, level_of};
use levels::Levels;
use unique::Grown;

// Restrict: the node of a node's rule with a flag fixed to a value, where the node asks no flag before level `at`.
pub fn fix_node(
    levels: Levels,
    flag: u16,
    value: u16,
    at: u8,
    m: u16,
    cells: &mut [u16],
    index: &mut [u16; record_index::INDEX],
    used: u16,
) -> Grown
    requires { (flag < levels.n) × (value < 2) × Ready levels cells.old used index.old × From levels cells.old used at m }
    ensures { Comes levels (made_in levels.n cells.old (fix m flag value)) at cells.old used result cells.new index.new }
{
    let own = level_of(levels, cells, m);
    if levels.level(flag) <= own {
        let fixed = branch(cells, flag, value, m);
        return Grown {
            used,
            found: Some(fixed),
        };
    }
    let asked = cells::flag_at(cells, m - 2);
    let next = own + 1;
    let by = both_branches(cells, asked, m);
    let no = fix_node(levels, flag, value, next, by.no, cells, index, used);
    let Some(low) = no.found else {
        return no;
    };
    let yes = fix_node(levels, flag, value, next, by.yes, cells, index, no.used);
    unique::make_above(cells, index, asked, low, yes)
}
