ghost use Rattle.rule.specs.Bits.{bit};
ghost use Rattle.rule.specs.Files.{records_bit, field_if, read_records};
ghost use Rattle.cursor.specs.Step.{reading_of, Before};
ghost use Rattle.fields.specs.Fields.{Ends};

use cursor::{Cursor, two_at};
use rule::{COUNT_SIZE, RECORD_SIZE, RECORDS_BIT, Refusal};

// Bit 3, the records: for their count 11, then 6, then 10, then 11 for the records.
#[tactic(auto, using(cursor::proofs::Stepped::entered), unfolding(rule::specs::Files::read_records, rule::specs::Files::unless))]
pub fn read_records(file: &[u8], map: u16, cells: &[u16], cursor: Cursor) -> Result<Cursor, Refusal>
    requires { Before file.now cursor }
    ensures { Ends cells.now file.now (field_if (bit map records_bit) (read_records cells.now file.now) (reading_of file.now cursor)) result }
{
    if bits::bit(map, RECORDS_BIT) == 0 {
        return Ok(cursor);
    }
    if file.len() - cursor.at < COUNT_SIZE {
        return Err(Refusal::FileEnd);
    }
    let count = two_at(file, cursor.at);
    if count == 0 {
        return Err(Refusal::Records);
    }
    if cells::room(cells) < count as usize {
        return Err(Refusal::NoRoom);
    }
    let records = cursor.at + COUNT_SIZE;
    let size = count as usize * RECORD_SIZE;
    if file.len() - records < size {
        return Err(Refusal::FileEnd);
    }
    Ok(Cursor {
        records,
        count,
        at: records + size,
        ..cursor
    })
}
