ghost use Rattle.rule.specs.Bits.{bit};
ghost use Rattle.rule.specs.Files.{label_bit, field_if, read_label};
ghost use Rattle.cursor.specs.Step.{reading_of, Before, Leads};

use arguments::all_printable;
use cursor::Cursor;
use rule::{LABEL_BIT, LONGEST_LABEL, Refusal};

// Bit 2, the label: for its length byte 11, then 13, then for its bytes 11, then 13.
#[tactic(auto, using(cursor::proofs::Stepped::entered), unfolding(rule::specs::Files::read_label, rule::specs::Files::unless))]
pub fn read_label(file: &[u8], map: u16, cursor: Cursor) -> Result<Cursor, Refusal>
    requires { Before file.now cursor }
    ensures { Leads file.now (field_if (bit map label_bit) (read_label file.now) (reading_of file.now cursor)) result }
{
    if bits::bit(map, LABEL_BIT) == 0 {
        return Ok(cursor);
    }
    let Some(&length) = file.get(cursor.at) else {
        return Err(Refusal::FileEnd);
    };
    let size = length as usize;
    let label = cursor.at + 1;
    let left = file.len() - label;
    if size == 0 || LONGEST_LABEL < size {
        return Err(Refusal::FileLabel);
    }
    if left < size {
        return Err(Refusal::FileEnd);
    }
    let end = label + size;
    if !all_printable(&file[label..end]) {
        return Err(Refusal::FileLabel);
    }
    Ok(Cursor {
        label,
        size,
        at: end,
        ..cursor
    })
}
