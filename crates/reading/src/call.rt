ghost use Rattle.rule.specs.Answers.{loaded_reply};
ghost use Rattle.rule.specs.Files.{Reads, Label};

use cursor::bit_map;
use laying::{read_aside, root_of};
use rule::{Loaded, Refusal};

// Read: n, the order, the record count and the root, with the records in sequence in the cells; or why the file is none.
pub fn read(file: &[u8], cells: &mut [u16]) -> Result<Loaded, Refusal>
    ensures { Reads file.now cells.old (loaded_reply result) cells.new }
{
    let mut held = [0u16; cells::MOST];
    let cursor = read_aside(file, cells, &mut held)?;
    let root = root_of(bit_map(file), cursor.count);
    let aside = &held[..cells.len()];
    sequencing::sequence(cursor.n, cursor.order, aside, cursor.count, cells);
    Ok(Loaded {
        n: cursor.n,
        order: cursor.order,
        records: cursor.count,
        root,
    })
}

// The label: that part of the file, an empty one where the file has none or is refused for these cells.
pub fn label<'a>(file: &'a [u8], cells: &[u16]) -> &'a [u8]
    ensures { Label file.entry cells.now result }
{
    let mut held = [0u16; cells::MOST];
    let Ok(cursor) = read_aside(file, cells, &mut held) else {
        return &file[0..0];
    };
    let start = cursor.label;
    let end = start + cursor.size;
    &file[start..end]
}
