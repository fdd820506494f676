ghost use Rattle.std.specs.Prelude.{◌≤◌};
ghost use Rattle.rule.specs.Results.{made_in, join};
ghost use Rattle.apply.specs.Grow.{Ready, From, Comes};

use apply::{both_branches, earlier};
use levels::Levels;
use terminals::terminal_case;
use unique::Grown;

// Apply: the node of two nodes' rules joined by an operator, where neither asks a flag before level `at`.
pub fn join_nodes(
    levels: Levels,
    code: u8,
    at: u8,
    f: u16,
    g: u16,
    cells: &mut [u16],
    index: &mut [u16; record_index::INDEX],
    used: u16,
) -> Grown
    requires { (code ≤ 15) × Ready levels cells.old used index.old × From levels cells.old used at f × From levels cells.old used at g }
    ensures { Comes levels (made_in levels.n cells.old (join code f g)) at cells.old used result cells.new index.new }
{
    if let Some(m) = terminal_case(code, f, g) {
        return Grown {
            used,
            found: Some(m),
        };
    }
    let top = earlier(levels, cells, f, g);
    let flag = cells::flag_at(cells, top - 2);
    let next = levels.level(flag) + 1;
    let fs = both_branches(cells, flag, f);
    let gs = both_branches(cells, flag, g);
    let no = join_nodes(levels, code, next, fs.no, gs.no, cells, index, used);
    let Some(low) = no.found else {
        return no;
    };
    let yes = join_nodes(levels, code, next, fs.yes, gs.yes, cells, index, no.used);
    unique::make_above(cells, index, flag, low, yes)
}
