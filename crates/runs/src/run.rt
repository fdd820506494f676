ghost use Rattle.std.specs.Prelude.{[], ◌∷◌, ◌+◌, ◌≤◌, ◌<◌, length};
ghost use Rattle.runs.specs.Run.{Puts};

// Writes a byte at a place, and hands back the next place, as all of these do.
pub fn put_byte(bytes: &mut [u8], at: usize, b: u8) -> usize
    requires { at < length bytes.old }
    ensures { Puts bytes.old at (b ∷ []) result bytes.new }
{
    bytes[at] = b;
    at + 1
}

// Writes a run of bytes.
pub fn put_run(bytes: &mut [u8], at: usize, run: &[u8]) -> usize
    requires { at + length run.now ≤ length bytes.old }
    ensures { Puts bytes.old at run.now result bytes.new }
{
    let next = at + run.len();
    bytes[at..next].copy_from_slice(run);
    next
}
