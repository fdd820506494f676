ghost use Rattle.std.specs.Prelude.{◌≡◌, [], ◌∷◌, ◌^◌, ◌≤◌};
ghost use Rattle.rule.specs.Table.{fit_rows};
ghost use Rattle.rule.specs.Answers.{test_number};
ghost use Rattle.rule.specs.Refusals.{refusal, flag_count, table_length, table_read};

use rule::Refusal;

// The rows of a table of n flags.
pub fn row_count(n: u8) -> usize
    requires { n ≤ 10 }
    ensures { result ≡ 2 ^ n }
{
    1 << n
}

// Whether each byte is 0 or 1.
fn fit_rows(table: &[u8]) -> bool
    ensures { result ≡ fit_rows table.now }
{
    table.iter().all(|&b| b < 2)
}

// The tests of a flag count and a table: 1, 2, then 3.
pub fn test_table(n: u8, table: &[u8]) -> Result<(), Refusal>
    ensures { test_number result ≡ refusal (flag_count n ∷ table_length n table.now ∷ table_read table.now ∷ []) }
{
    if 10 < n {
        return Err(Refusal::FlagCount);
    }
    if table.len() != row_count(n) {
        return Err(Refusal::TableLength);
    }
    if !fit_rows(table) {
        return Err(Refusal::TableByte);
    }
    Ok(())
}
