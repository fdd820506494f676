// The sixteen operators of two rules by their codes (document 01, "The store"; document 002, the column Table): what a join answers at two end nodes.
#![tactic(auto)]

ghost use Rattle.std.specs.Prelude.{◌≡◌, ◌<◌};
ghost use Rattle.operators.specs.Answer.{digit_reply, answer};

use rule::Refusal;

// The end node that the operator of a code answers for two end nodes. Codes from 16 on are refused.
pub fn operate(code: u8, first: u16, second: u16) -> Result<u16, Refusal>
    requires { (first < 2) × (second < 2) }
    ensures { digit_reply result ≡ answer code first second }
{
    match code {
        0 => Ok(0),
        1 => Ok(first & second),
        2 => Ok(first & (1 - second)),
        3 => Ok(first),
        4 => Ok((1 - first) & second),
        5 => Ok(second),
        6 => Ok(first ^ second),
        7 => Ok(first | second),
        8 => Ok(1 - (first | second)),
        9 => Ok(1 - (first ^ second)),
        10 => Ok(1 - second),
        11 => Ok(first | (1 - second)),
        12 => Ok(1 - first),
        13 => Ok((1 - first) | second),
        14 => Ok(1 - (first & second)),
        15 => Ok(1),
        _ => Err(Refusal::Argument),
    }
}
