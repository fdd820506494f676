ghost use Rattle.std.specs.Prelude.{◌≡◌, IfOk, get_or};
ghost use Rattle.rule.specs.Bits.{bit};
ghost use Rattle.rule.specs.Files.{flags_bit, and_then, field_if, file_map, read_flags};
ghost use Rattle.cursor.specs.Step.{outcome_of, Before, Leads, map_read};

use crate::place::Cursor;
use rule::{FLAGS_BIT, MAP_END, Order, RECORDS_BIT, Refusal, YES_BIT};

// The bit map: the file's first byte, 0 where there is none.
pub fn bit_map(file: &[u8]) -> u16
    ensures { result ≡ get_or file.now 0 0 }
{
    file.first().map_or(0, |&byte| byte as u16)
}

// Whether a map has one of bits 5 to 7, or bits 3 and 4 together.
fn is_unfit(map: u16) -> bool
    ensures { result ≡ (file_map map).0 }
{
    MAP_END <= map || bits::bit(map, RECORDS_BIT) == 1 && bits::bit(map, YES_BIT) == 1
}

// The bit map tested: 11, then 12.
#[tactic(auto, unfolding(crate::specs::Step::map_read, rule::specs::Files::unless, rule::specs::Bits::from))]
pub fn read_map(file: &[u8]) -> Result<Cursor, Refusal>
    ensures { Leads file.now (map_read file.now) result }
{
    if file.is_empty() {
        return Err(Refusal::FileEnd);
    }
    if is_unfit(bit_map(file)) {
        return Err(Refusal::FileMap);
    }
    Ok(Cursor::start())
}

// Bit 0, n: 11, then 1. A step that is refused stays so.
#[tactic(auto, using(crate::proofs::Stepped::entered), unfolding(rule::specs::Files::read_flags, rule::specs::Files::unless))]
pub fn read_flags(file: &[u8], map: u16, step: Result<Cursor, Refusal>) -> Result<Cursor, Refusal>
    requires { IfOk step (Before file.now) }
    ensures { Leads file.now (and_then (outcome_of file.now step) (field_if (bit map flags_bit) (read_flags file.now))) result }
{
    let cursor = step?;
    if bits::bit(map, FLAGS_BIT) == 0 {
        return Ok(cursor);
    }
    let Some(&n) = file.get(cursor.at) else {
        return Err(Refusal::FileEnd);
    };
    if 10 < n {
        return Err(Refusal::FlagCount);
    }
    Ok(Cursor {
        n,
        order: Order::rising(n),
        at: cursor.at + 1,
        ..cursor
    })
}
