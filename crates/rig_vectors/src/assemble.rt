// The bytes of an input, put together from a line.
ghost use Rattle.std.specs.Prelude.{◌≤◌, ◌<◌, length};

use words::log::put_log;

// Where a table's characters end: at the first `;`, or at the end of the line.
fn table_end(line: &[u8]) -> usize
    ensures { result ≤ length line.now }
{
    match line.iter().position(|byte| *byte == b';') {
        Some(place) => place,
        None => line.len(),
    }
}

// Writes a table's characters into the first of the lent bytes, and a line end behind them.
fn put_table(table: &[u8], out: &mut [u8])
    requires { length table.now < length out.old }
{
    let end = table.len();
    out[..end].copy_from_slice(table);
    out[end] = b'\n';
}

// A line's input: how many bytes it has, all of the lent ones where it does not fit them.
pub fn assemble(line: &[u8], input: &mut [u8]) -> usize
    ensures { result ≤ length input.new }
{
    let end = table_end(line);
    if input.len() <= end {
        return input.len();
    }
    put_table(&line[0..end], input);
    if end == line.len() {
        return end;
    }
    let start = end + 1;
    put_log(line, start, input, start)
}
