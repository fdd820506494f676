// What is tested of a wanted answer and two sets of flags.
ghost use Rattle.std.specs.Prelude.{◌≡◌, ◌≤◌};
ghost use Rattle.rule.specs.Answers.{test_number};
ghost use Rattle.rule.specs.Provoke.{ones_fixed};
ghost use Rattle.rule.specs.Refusals.{refusal, aim_rows};

use rule::Refusal;

// Whether each flag that is to be 1 is fixed.
fn ones_fixed(fixed: u16, ones: u16) -> bool
    ensures { result ≡ ones_fixed fixed ones }
{
    for i in 0..10 {
        if bits::bit(fixed, i) < bits::bit(ones, i) {
            return false;
        }
    }
    true
}

// The tests of them: 9 for a wanted answer above 1, a bit of a set at or above n, or a 1 outside the fixed set.
pub fn test_aim(n: u8, wanted: u16, fixed: u16, ones: u16) -> Result<(), Refusal>
    requires { n ≤ 10 }
    ensures { test_number result ≡ refusal (aim_rows n wanted fixed ones) }
{
    let rows = arguments::row_count(n);
    if 1 < wanted {
        return Err(Refusal::Argument);
    }
    if rows <= fixed as usize {
        return Err(Refusal::Argument);
    }
    if rows <= ones as usize {
        return Err(Refusal::Argument);
    }
    if !ones_fixed(fixed, ones) {
        return Err(Refusal::Argument);
    }
    Ok(())
}
