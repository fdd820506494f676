ghost use Rattle.std.specs.Prelude.{◌≡◌};
ghost use Rattle.rule.specs.Tests.{each};
ghost use Rattle.rule.specs.Files.{printable};

// Whether each byte is 20 to 7E, hexadecimal.
pub fn all_printable(bytes: &[u8]) -> bool
    ensures { result ≡ each printable bytes.now }
{
    bytes.iter().all(|&b| 0x20 <= b && b <= 0x7E)
}
