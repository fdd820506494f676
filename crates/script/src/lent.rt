// How much a line may lend, and what stands in it.

// The rows of a table of eleven flags, one too many.
pub const MOST_BYTES: usize = 2048;

// More cells than may be lent.
pub const MOST_CELLS: usize = cells::MOST + cells::RECORDS;

// What cells are lent with.
pub const CELL_JUNK: u16 = 7;

// What bytes are lent with.
pub const BYTE_JUNK: u8 = 7;
