// Records in lent cells: the one place that knows how wide a record is and where its fields stand. Callers go by the contracts and their laws
// (proofs/Record.antt), never by an index of their own.
#![tactic(auto)]

ghost use Rattle.std.specs.Prelude.{◌≡◌, ◌≤◌, ◌<◌, length};
ghost use Rattle.rule.specs.Cells.{fit_cells, room, flag_at, low_at, high_at};
ghost use Rattle.rule.specs.Sound.{rest_clear};
ghost use Rattle.cells.specs.Record.{put_record, clear_from};

// The cells of a record.
pub const WIDTH: usize = 3;

// The most records that lent cells may hold, and their cells.
pub const RECORDS: usize = 1024;

pub const MOST: usize = RECORDS * WIDTH;

// Whether the length of lent cells is a multiple of a record's width, and not too long (refusal 5).
#[tactic(auto, unfolding(rule::specs::Cells::fit_cells))]
pub fn fit_cells(cells: &[u16]) -> bool
    ensures { result ≡ fit_cells cells.now }
{
    cells.len() % WIDTH == 0 && cells.len() <= MOST
}

// How many records the cells hold.
pub fn room(cells: &[u16]) -> usize
    ensures { result ≡ room cells.now }
{
    cells.len() / WIDTH
}

// The flag that record k asks.
#[tactic(auto, unfolding(rule::specs::Cells::flag_at))]
pub fn flag_at(cells: &[u16], k: u16) -> u16
    requires { k < room cells.now }
    ensures { result ≡ flag_at cells.now k }
{
    cells[(k as usize) * WIDTH]
}

// The low node of record k, where its flag is 0.
#[tactic(auto, unfolding(rule::specs::Cells::low_at))]
pub fn low_at(cells: &[u16], k: u16) -> u16
    requires { k < room cells.now }
    ensures { result ≡ low_at cells.now k }
{
    cells[(k as usize) * WIDTH + 1]
}

// The high node of record k, where its flag is 1.
#[tactic(auto, unfolding(rule::specs::Cells::high_at))]
pub fn high_at(cells: &[u16], k: u16) -> u16
    requires { k < room cells.now }
    ensures { result ≡ high_at cells.now k }
{
    cells[(k as usize) * WIDTH + 2]
}

// Whether every cell from record k on is 0.
pub fn rest_clear(cells: &[u16], k: u16) -> bool
    ensures { result ≡ rest_clear cells.now k }
{
    cells.iter().skip((k as usize) * WIDTH).all(|&c| c == 0)
}

// Puts a record at place k.
#[tactic(auto, using(crate::proofs::Record::put_stores))]
pub fn put(cells: &mut [u16], k: u16, flag: u16, low: u16, high: u16)
    requires { k < room cells.old }
    ensures { cells.new ≡ put_record cells.old k flag low high }
{
    let at = (k as usize) * WIDTH;
    cells[at] = flag;
    cells[at + 1] = low;
    cells[at + 2] = high;
}

// Clears the cells from record k on.
#[tactic(auto, unfolding(crate::specs::Record::clear_from))]
pub fn clear_from(cells: &mut [u16], k: u16)
    requires { k ≤ room cells.old }
    ensures { cells.new ≡ clear_from cells.old k }
{
    cells[(k as usize) * WIDTH..].fill(0);
}

// Writes all of src over dst, which is as long.
pub fn copy(src: &[u16], dst: &mut [u16])
    requires { length src.now ≡ length dst.old }
    ensures { dst.new ≡ src.now }
{
    // kept as a loop: `copy_from_slice` calls `memmove`, a name that the library for C did not need before.
    for (i, cell) in src.iter().enumerate() {
        dst[i] = *cell;
    }
}
