// The index beside the cells, in an array of the call's own: for each hash the last record that has it, and for each record the last one before it with the
// same hash, each as its number plus 1, or 0 for none. A search goes down the records of one hash.
ghost use Rattle.std.specs.Prelude.{◌≡◌, ◌+◌, ◌≤◌, ◌<◌};
ghost use Rattle.rule.specs.Cells.{room};
ghost use Rattle.record_index.specs.Index.{hash, heads, links, Indexed};
ghost use Rattle.record_index.specs.Find.{Finds};

// How many hashes there are: some more than records, so that most chains are empty.
const HEADS: usize = 4096;

// A link for each record that cells can hold.
const LINKS: usize = cells::RECORDS;

// The length of an index: its heads, then a link for each record. All of it is 0 where no record is used.
pub const INDEX: usize = HEADS + LINKS;

// What the flag and the high node are multiplied by in a hash.
const FLAG_FACTOR: usize = 349;

const HIGH_FACTOR: usize = 633;

// The hash of a record.
fn hash(flag: u16, low: u16, high: u16) -> usize
    ensures { (result ≡ hash flag low high) × (result < heads) }
{
    (flag as usize * FLAG_FACTOR + low as usize + high as usize * HIGH_FACTOR) % HEADS
}

// A used record that has this flag and these children, or None where none has.
pub fn find(
    cells: &[u16],
    index: &[u16; INDEX],
    used: u16,
    flag: u16,
    low: u16,
    high: u16,
) -> Option<u16>
    requires { (used ≤ room cells.now) × (room cells.now ≤ links) × Indexed cells.now used index.now }
    ensures { Finds cells.now used flag low high result }
{
    let mut at = index[hash(flag, low, high)];
    while 0 < at {
        let k = at - 1;
        if cells::flag_at(cells, k) == flag
            && cells::low_at(cells, k) == low
            && cells::high_at(cells, k) == high
        {
            return Some(k);
        }
        at = index[HEADS + k as usize];
    }
    None
}

// Enters record k, behind those that are entered.
pub fn enter(cells: &[u16], index: &mut [u16; INDEX], k: u16)
    requires { (k < room cells.now) × (room cells.now ≤ links) × Indexed cells.now k index.old }
    ensures { Indexed cells.now (k + 1) index.new }
{
    let h = hash(
        cells::flag_at(cells, k),
        cells::low_at(cells, k),
        cells::high_at(cells, k),
    );
    index[HEADS + k as usize] = index[h];
    index[h] = k + 1;
}
