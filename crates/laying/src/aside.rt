ghost use Rattle.std.specs.Prelude.{◌≡◌, ◌+◌, ◌≤◌, ◌<◌, length, replicate};
ghost use Rattle.rule.specs.Cells.{most_cells, most_records, room};
ghost use Rattle.rule.specs.Files.{root_read};
ghost use Rattle.fields.specs.Fields.{Whole};
ghost use Rattle.laying.specs.Aside.{Tested, ReadAside};

use crate::records::lay;
use cursor::{Cursor, bit_map};
use fields::read_fields;
use rule::{Node, Refusal, YES_BIT};

// The root: the last record, or the end node of bit 4.
pub fn root_of(map: u16, count: u16) -> Node
    requires { count < 65535 }
    ensures { result.number ≡ root_read map count }
{
    if count != 0 {
        return Node { number: count + 1 };
    }
    if bits::bit(map, YES_BIT) == 1 {
        return Node::YES;
    }
    Node::NO
}

// Lays a file's records in cells that are 0, and tells whether they are a diagram there.
fn lay_diagram(file: &[u8], cursor: Cursor, root: u16, held: &mut [u16]) -> bool
    requires { Whole held.old file.now cursor × (room held.old ≤ most_records) × (held.old ≡ replicate (length held.old) 0) × (root ≤ cursor.count + 1) }
    ensures { Tested file.now cursor root held.old result held.new }
{
    lay(file, cursor.records, cursor.count, held);
    checking::is_diagram(cursor.n, cursor.order, held, cursor.count, root)
}

// The file read and tested: 5, its fields, 11 for bytes left over, then 6. Where nothing is refused, its records lie in the first of `held`.
pub fn read_aside(file: &[u8], cells: &[u16], held: &mut [u16]) -> Result<Cursor, Refusal>
    requires { held.old ≡ replicate most_cells 0 }
    ensures { ReadAside cells.now file.now held.new result }
{
    if !cells::fit_cells(cells) {
        return Err(Refusal::CellsLength);
    }
    let cursor = read_fields(file, cells)?;
    if cursor.at < file.len() {
        return Err(Refusal::FileEnd);
    }
    let root = root_of(bit_map(file), cursor.count);
    if !lay_diagram(file, cursor, root.number, &mut held[..cells.len()]) {
        return Err(Refusal::Records);
    }
    Ok(cursor)
}
