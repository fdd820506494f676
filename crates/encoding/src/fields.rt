ghost use Rattle.std.specs.Prelude.{◌∷◌, ◌++◌, ℕ, ◌+◌, ◌≤◌, ◌<◌, length};
ghost use Rattle.rule.specs.Cells.{room, flag_at, records_in};
ghost use Rattle.rule.specs.Files.{longest_label, two, record_bytes, if_some};
ghost use Rattle.runs.specs.Run.{Puts};

use crate::parts::{put_records, put_two};
use runs::{put_byte, put_run};

// Writes a label behind its length, or nothing for an empty one.
pub fn put_label(bytes: &mut [u8], at: usize, label: &[u8]) -> usize
    requires { (length label.now ≤ longest_label) × (at + length (if_some (length label.now) (length label.now ∷ label.now)) ≤ length bytes.old) }
    ensures { Puts bytes.old at (if_some (length label.now) (length label.now ∷ label.now)) result bytes.new }
{
    if label.len() == 0 {
        return at;
    }
    let next = put_byte(bytes, at, label.len() as u8);
    put_run(bytes, next, label)
}

// Writes the used records behind their count, or nothing for none.
pub fn put_counted(bytes: &mut [u8], at: usize, cells: &[u16], used: u16) -> usize
    requires { (used ≤ room cells.now) × ((k : ℕ) → k < used → flag_at cells.now k < 256)
        × (at + length (if_some used (two used ++ record_bytes (records_in cells.now used))) ≤ length bytes.old) }
    ensures { Puts bytes.old at (if_some used (two used ++ record_bytes (records_in cells.now used))) result bytes.new }
{
    if used == 0 {
        return at;
    }
    let next = put_two(bytes, at, used);
    put_records(bytes, next, cells, used)
}
