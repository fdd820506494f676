// Read.
ghost use Rattle.rule.specs.Files.{Reads};
ghost use Rattle.exports.specs.Word.{CodesLoaded};

use crate::values::{answer, loaded};

// Read: the order goes into ten lent bytes, which stay as they are where it is refused; n, the record count and the root.
#[unsafe(no_mangle)]
pub extern "C" fn engine_read(file: &[u8], places: &mut [u8; 10], cells: &mut [u16]) -> u64
    ensures { CodesLoaded (λ a. Reads file.now cells.old a cells.new) places.old result places.new }
{
    match reading::read(file, cells) {
        Ok(read) => {
            let found = read.order.places;
            *places = found;
            loaded(read.n, read.records, read.root.number)
        }
        Err(refusal) => answer(refusal.number(), 0, 0),
    }
}
