ghost use Rattle.std.specs.Prelude.{◌≡◌, ◌+◌, ◌≤◌, length, take, drop};
ghost use Rattle.rule.specs.Bits.{bit};
ghost use Rattle.rule.specs.Order.{in_places};
ghost use Rattle.rule.specs.Files.{order_bit, field_if, read_order};
ghost use Rattle.cursor.specs.Step.{reading_of, Before, Leads};

use cursor::Cursor;
use rule::{ORDER_BIT, Order, Refusal};

// An order of n flags from n bytes at a place.
fn order_at(file: &[u8], at: usize, n: u8) -> Order
    requires { (n ≤ 10) × (at + n ≤ length file.now) }
    ensures { result.places ≡ in_places (take n (drop at file.now)) }
{
    let n = n as usize;
    let mut places = [0u8; 10];
    places[..n].copy_from_slice(&file[at..at + n]);
    Order { places }
}

// Bit 1, the order: 11, then 4.
#[tactic(auto, using(cursor::proofs::Stepped::entered), unfolding(rule::specs::Files::read_order, rule::specs::Files::unless))]
pub fn read_order(file: &[u8], map: u16, cursor: Cursor) -> Result<Cursor, Refusal>
    requires { Before file.now cursor }
    ensures { Leads file.now (field_if (bit map order_bit) (read_order file.now) (reading_of file.now cursor)) result }
{
    if bits::bit(map, ORDER_BIT) == 0 {
        return Ok(cursor);
    }
    let size = cursor.n as usize;
    if file.len() - cursor.at < size {
        return Err(Refusal::FileEnd);
    }
    let order = order_at(file, cursor.at, cursor.n);
    if !orders::fit_order(order, cursor.n) {
        return Err(Refusal::OrderPlaces);
    }
    Ok(Cursor {
        order,
        at: cursor.at + size,
        ..cursor
    })
}
