// The recursion over sets (document 001, chapter 3): by the fixed list, so that every subset of a set is solved before it.
ghost use Rattle.std.specs.Prelude.{◌≡◌, ◌≤◌, ◌^◌, length};
ghost use Rattle.searching.specs.Order.{Searched};

use crate::order::follow;
use rule::Order;
use stretches::SET_COUNT;

// Writes a table over a stretch that is as long: the codes of a table's rows are the rows.
fn begin(table: &[u8], stretch: &mut [u16])
    requires { length table.now ≡ length stretch.old }
    ensures { stretch.new ≡ table.now }
{
    for (i, row) in table.iter().enumerate() {
        stretch[i] = *row as u16;
    }
}

// The packed order of a fit table.
pub fn search(n: u8, table: &[u8], workspace: &mut [u16]) -> Order
    requires { (n ≤ 10) × (length table.now ≡ 2 ^ n) × (3 ^ n ≤ length workspace.old) }
    ensures { Searched n table.now workspace.old result.places workspace.new }
{
    let starts = stretches::starts(n);
    let mut least = [0u32; SET_COUNT];
    let mut first = [0u16; SET_COUNT];
    let rows = table.len();
    begin(table, &mut workspace[0..rows]);
    for i in 0..SET_COUNT {
        let set = sets::set_at(i);
        if set != 0 && (set as usize) < rows {
            solving::solve(n, set, &starts, workspace, &mut least, &mut first);
        }
    }
    follow(n, &first)
}
