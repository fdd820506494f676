ghost use Rattle.std.specs.Prelude.{◌≡◌, ◌+◌, ◌<◌, length};
ghost use Rattle.rule.specs.Files.{two_at};

// A number in two bytes at a place, low byte first.
pub fn two_at(file: &[u8], at: usize) -> u16
    requires { at + 1 < length file.now }
    ensures { result ≡ two_at file.now at }
{
    u16::from_le_bytes([file[at], file[at + 1]])
}
