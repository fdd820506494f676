// What a rule file is made of (document 01, "Rule files"): the names of Files.antt.

// The bits of its map: the fields that follow, and the root "yes".
pub const FLAGS_BIT: u16 = 0;

pub const ORDER_BIT: u16 = 1;

pub const LABEL_BIT: u16 = 2;

pub const RECORDS_BIT: u16 = 3;

pub const YES_BIT: u16 = 4;

// A map from here on has a bit past these.
pub const MAP_END: u16 = 1 << (YES_BIT + 1);

// The most bytes of a label, read or written (document 02, request 1): as many as the fitting tool's screen shows.
pub const LONGEST_LABEL: usize = 31;

// The bytes of the record count, and of a record.
pub const COUNT_SIZE: usize = 2;

pub const RECORD_SIZE: usize = 5;
