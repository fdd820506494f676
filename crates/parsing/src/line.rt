ghost use Rattle.std.specs.Prelude.{◌≡◌, true, ◌≤◌, length, take};
ghost use Rattle.rule.specs.Tests.{each};
ghost use Rattle.rule.specs.Refusals.{refusal};
ghost use Rattle.rule.specs.Answers.{test_number};
ghost use Rattle.rule.specs.Text.{read_line};
ghost use Rattle.rule.specs.Listing.{is_digit, rows_of, flags_from, line_rows};
ghost use Rattle.parsing.specs.Final.{enough};

use rule::Refusal;

// The rows of a table of ten flags.
pub const MOST_ROWS: usize = 1024;

// Where the first line ends: at the first 0A, or at the end of the input.
pub fn line_end(input: &[u8]) -> usize
    ensures { (result ≤ length input.now) × (take result input.now ≡ (read_line input.now).0) }
{
    input
        .iter()
        .position(|byte| *byte == 0x0A)
        .unwrap_or(input.len())
}

// Whether no byte behind these counts: the last of them ends the line, or they are more than a table's rows.
pub fn is_enough(input: &[u8]) -> bool
    ensures { result ≡ enough input.now }
{
    MOST_ROWS < input.len() || !input.is_empty() && input[input.len() - 1] == 0x0A
}

// The flags of a table of so many rows, 11 where it is no power of two up to `MOST_ROWS`.
pub fn flags_of(rows: usize) -> u8
    ensures { (result ≡ flags_from 11 0 rows) × (result ≤ 11) }
{
    for n in 0..11 {
        if rows == arguments::row_count(n) {
            return n;
        }
    }
    11
}

// Whether a byte is the character 0 or 1.
fn is_digit(b: u8) -> bool
    ensures { result ≡ is_digit b }
{
    b == b'0' || b == b'1'
}

// Whether each byte is.
fn all_digits(line: &[u8]) -> bool
    ensures { result ≡ each is_digit line.now }
{
    line.iter().all(|byte| is_digit(*byte))
}

// The tests of a line: 1, 2, then 3.
pub fn test_line(line: &[u8]) -> Result<(), Refusal>
    ensures { test_number result ≡ refusal (line_rows line.now) }
{
    if MOST_ROWS < line.len() {
        return Err(Refusal::FlagCount);
    }
    if 10 < flags_of(line.len()) {
        return Err(Refusal::TableLength);
    }
    if !all_digits(line) {
        return Err(Refusal::TableByte);
    }
    Ok(())
}

// The rows that a line's characters stand for.
pub fn read_rows(line: &[u8], rows: &mut [u8])
    requires { (each is_digit line.now ≡ true) × (length rows.old ≡ length line.now) }
    ensures { rows.new ≡ rows_of line.now }
{
    for (i, byte) in line.iter().enumerate() {
        rows[i] = *byte - b'0';
    }
}
