ghost use Rattle.std.specs.Prelude.{◌≡◌, map, ◌+◌, ◌*◌, ◌≤◌, length, replicate};
ghost use Rattle.rule.specs.Bits.{below};
ghost use Rattle.rule.specs.Cells.{room, laid_in};
ghost use Rattle.rule.specs.Files.{record_size, record_at};

use cursor::two_at;
use rule::RECORD_SIZE;

// Lays so many records, that start at a place of the file, in cells that are 0.
pub fn lay(file: &[u8], start: usize, count: u16, cells: &mut [u16])
    requires { (start + count * record_size ≤ length file.now) × (count ≤ room cells.old) × (cells.old ≡ replicate (length cells.old) 0) }
    ensures { cells.new ≡ laid_in cells.old (map (record_at file.now start) (below count)) }
{
    for k in 0..count {
        let at = start + k as usize * RECORD_SIZE;
        let low = two_at(file, at + 1);
        let high = two_at(file, at + 3);
        cells::put(cells, k, file[at] as u16, low, high);
    }
}
