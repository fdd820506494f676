// The bits of a row, or of a set of flags: the value that it gives a flag, and the row with a flag's value set.
#![tactic(auto)]

ghost use Rattle.std.specs.Prelude.{◌≡◌, ◌<◌};
ghost use Rattle.rule.specs.Bits.{bit, set_bit};

// The value of a flag in a row.
pub fn bit(row: u16, flag: u16) -> u16
    requires { flag < 10 }
    ensures { result ≡ bit row flag }
{
    (row >> flag) % 2
}

// The row with a flag's value set.
pub fn set_bit(row: u16, flag: u16, value: u16) -> u16
    requires { (row < 1024) × (flag < 10) × (value < 2) }
    ensures { result ≡ set_bit row flag value }
{
    let unit: u16 = 1 << flag;
    if bit(row, flag) == value {
        return row;
    }
    if value == 0 { row - unit } else { row + unit }
}
