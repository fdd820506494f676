ghost use Rattle.std.specs.Prelude.{◌≡◌, ◌≤◌, ◌<◌, length};
ghost use Rattle.rule.specs.Cells.{room};
ghost use Rattle.rule.specs.Diagram.{asking};
ghost use Rattle.rule.specs.Listing.{yes_count};

// How many of the used records ask flag v.
pub fn asking(cells: &[u16], used: u16, v: u16) -> u16
    requires { used ≤ room cells.now }
    ensures { result ≡ asking cells.now used v }
{
    let mut count: u16 = 0;
    for k in 0..used {
        if cells::flag_at(cells, k) == v {
            count += 1;
        }
    }
    count
}

// How many rows say yes.
pub fn yes_count(table: &[u8]) -> u16
    requires { length table.now < 65536 }
    ensures { result ≡ yes_count table.now }
{
    table.iter().filter(|row| **row == 1).count() as u16
}
