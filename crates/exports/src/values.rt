ghost use Rattle.std.specs.Prelude.{◌≡◌};
ghost use Rattle.exports.specs.Word.{word};

use tallying::Tally;

// An answer as one number, from the lowest bit on: the refusal in 8 bits, 0 for none, then three values in 16 bits each.
fn coded(refused: u8, first: u16, second: u16, third: u16) -> u64
    ensures { result ≡ word refused first second third }
{
    refused as u64 + first as u64 * 256 + second as u64 * 16777216 + third as u64 * 1099511627776
}

// An answer with two values, or with fewer and zeros for the others.
pub fn answer(refused: u8, first: u16, second: u16) -> u64
    ensures { result ≡ word refused first second 0 }
{
    coded(refused, first, second, 0)
}

// What an accepted walk hands back.
pub fn walked(answer: u8, asked: u16, count: u8) -> u64
    ensures { result ≡ word 0 answer asked count }
{
    coded(0, answer as u16, asked, count as u16)
}

// What an accepted read hands back, but for the order.
pub fn loaded(n: u8, records: u16, root: u16) -> u64
    ensures { result ≡ word 0 n records root }
{
    coded(0, n as u16, records, root)
}

// What an accepted replay hands back, but for how often each flag was asked.
pub fn tallied(tally: Tally) -> u64
    ensures { result ≡ word 0 tally.played tally.yes tally.changes }
{
    coded(0, tally.played, tally.yes, tally.changes)
}
