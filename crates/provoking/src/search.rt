ghost use Rattle.std.specs.Prelude.{◌≡◌, not, ◌&&◌, eqb, ltb};
ghost use Rattle.provoking.specs.Search.{Seeking, Lowest};

use apply::branch;
use rule::Order;

// Stands for no row: above every row of ten flags.
// kept: as a number above all rows it lets one `<` compare what two halves of the rows hold; an Option would be taken apart at each.
pub const NO_ROW: u16 = 1024;

// Whether the rule's node is an end node that never gives the wanted answer.
fn never_wanted(wanted: u16, rule: u16) -> bool
    ensures { result ≡ (ltb rule 2 && not (eqb rule wanted)) }
{
    rule < 2 && rule != wanted
}

// Whether both nodes are end nodes.
fn both_ends(rule: u16, pass: u16) -> bool
    ensures { result ≡ (ltb rule 2 && ltb pass 2) }
{
    rule < 2 && pass < 2
}

// The lowest row that the pass rule's node allows, that has this row's values of the fixed flags and for which the rule's node gives the wanted answer. This row
// is the lowest that has the values, so where both nodes are end nodes it is this one or none. A free flag is tried with 0, then with 1, unless the row found
// with 0 is below every row with 1. It need not be: a flag asked later may have a higher number.
pub fn lowest(
    n: u8,
    order: Order,
    at: u8,
    cells: &[u16],
    used: u16,
    wanted: u16,
    rule: u16,
    pass: u16,
    fixed: u16,
    row: u16,
) -> u16
    requires { Seeking n order.places at cells.now used rule pass fixed row }
    ensures { Lowest n cells.now wanted rule pass fixed row result }
{
    if pass == 0 {
        return NO_ROW;
    }
    if never_wanted(wanted, rule) {
        return NO_ROW;
    }
    if both_ends(rule, pass) {
        return row;
    }
    let flag = order.places[at as usize] as u16;
    let value = bits::bit(row, flag);
    let settled = bits::set_bit(fixed, flag, 1);
    let m = branch(cells, flag, value, rule);
    let p = branch(cells, flag, value, pass);
    let below = at + 1;
    let here = lowest(n, order, below, cells, used, wanted, m, p, settled, row);
    if bits::bit(fixed, flag) == 1 {
        return here;
    }
    let next = bits::set_bit(row, flag, 1);
    if here < next {
        return here;
    }
    let m = branch(cells, flag, 1, rule);
    let p = branch(cells, flag, 1, pass);
    let there = lowest(n, order, below, cells, used, wanted, m, p, settled, next);
    if here < there {
        return here;
    }
    there
}
