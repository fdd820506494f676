ghost use Rattle.fields.specs.Fields.{Ends, fields_read};

use crate::label::read_label;
use crate::order::read_order;
use crate::records::read_records;
use cursor::{Cursor, bit_map, read_flags, read_map};
use rule::Refusal;

// All the fields, from left to right.
pub fn read_fields(file: &[u8], cells: &[u16]) -> Result<Cursor, Refusal>
    ensures { Ends cells.now file.now (fields_read cells.now file.now) result }
{
    let map = bit_map(file);
    let start = read_map(file);
    let flags = read_flags(file, map, start)?;
    let order = read_order(file, map, flags)?;
    let label = read_label(file, map, order)?;
    read_records(file, map, cells, label)
}
