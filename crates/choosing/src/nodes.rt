ghost use Rattle.std.specs.Prelude.{◌≡◌};
ghost use Rattle.rule.specs.Results.{made_in, choose};
ghost use Rattle.unique.specs.Node.{grown};
ghost use Rattle.apply.specs.Grow.{Ready, From, Comes};

use apply::{both_branches, earlier};
use levels::Levels;
use rule::Node;
use unique::Grown;

// A node that is there.
fn found(used: u16, m: u16) -> Grown
    ensures { result ≡ grown used m }
{
    Grown {
        used,
        found: Some(m),
    }
}

// If-then-else: the node of the second rule where the first says yes, else of the third, where none of the nodes asks a flag before level `at`.
pub fn choose_nodes(
    levels: Levels,
    at: u8,
    f: u16,
    g: u16,
    h: u16,
    cells: &mut [u16],
    index: &mut [u16; record_index::INDEX],
    used: u16,
) -> Grown
    requires { Ready levels cells.old used index.old × From levels cells.old used at f × From levels cells.old used at g × From levels cells.old used at h }
    ensures { Comes levels (made_in levels.n cells.old (choose f g h)) at cells.old used result cells.new index.new }
{
    if f == Node::NO.number {
        return found(used, h);
    }
    if f == Node::YES.number {
        return found(used, g);
    }
    if g == h {
        return found(used, g);
    }
    let top = earlier(levels, cells, f, earlier(levels, cells, g, h));
    let flag = cells::flag_at(cells, top - 2);
    let next = levels.level(flag) + 1;
    let fs = both_branches(cells, flag, f);
    let gs = both_branches(cells, flag, g);
    let hs = both_branches(cells, flag, h);
    let no = choose_nodes(levels, next, fs.no, gs.no, hs.no, cells, index, used);
    let Some(low) = no.found else {
        return no;
    };
    let yes = choose_nodes(levels, next, fs.yes, gs.yes, hs.yes, cells, index, no.used);
    unique::make_above(cells, index, flag, low, yes)
}
