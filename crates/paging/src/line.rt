ghost use Rattle.std.specs.Prelude.{◌≡◌, ◌+◌, ◌≤◌, ◌<◌, length};
ghost use Rattle.rule.specs.Text.{decimal};
ghost use Rattle.rule.specs.Cells.{record_in};
ghost use Rattle.rule.specs.Sheet.{line_length, column, record_line, unused_line, line_of, last_line, ended};
ghost use Rattle.runs.specs.Run.{Puts};
ghost use Rattle.paging.specs.Page.{Printable};

use runs::{put_blanks, put_byte, put_right, put_run};

// The characters of a line.
pub const LINE: usize = 20;

// The places of a node, a flag and a page number.
const NODE: usize = 5;

const FLAG: usize = 2;

const PAGE: usize = 16;

// Used records of lent cells, each of which a line has room for.
#[derive(Clone, Copy)]
pub struct Sheet<'a> {
    pub cells: &'a [u16],
    pub used: u16,
    pub ghost printable: { Printable cells.now used },
}

// Writes a number right-aligned in so many places, behind a blank.
fn put_column(bytes: &mut [u8], at: usize, places: usize, x: u16) -> usize
    requires { (length (decimal x) ≤ places) × (at + (places + 1) ≤ length bytes.old) }
    ensures { Puts bytes.old at (column places x) result bytes.new × (result ≡ at + (places + 1)) }
{
    let next = put_byte(bytes, at, b' ');
    put_right(bytes, next, places, x)
}

// Writes a line of blanks.
fn put_unused(bytes: &mut [u8], at: usize) -> usize
    requires { at + (line_length + 1) ≤ length bytes.old }
    ensures { Puts bytes.old at (ended unused_line) result bytes.new × (result ≡ at + (line_length + 1)) }
{
    let end = put_blanks(bytes, at, LINE);
    put_byte(bytes, end, b'\n')
}

// Writes a page's last line.
pub fn put_last(bytes: &mut [u8], at: usize, page: u16) -> usize
    requires { at + (line_length + 1) ≤ length bytes.old }
    ensures { Puts bytes.old at (ended (last_line page)) result bytes.new × (result ≡ at + (line_length + 1)) }
{
    let named = put_run(bytes, at, b"page");
    let end = put_right(bytes, named, PAGE, page);
    put_byte(bytes, end, b'\n')
}

impl Sheet<'_> {
    // Writes the line of a used record.
    fn put_record(&self, bytes: &mut [u8], at: usize, k: u16) -> usize
        requires { (k < self.now.used) × (at + (line_length + 1) ≤ length bytes.old) }
        ensures { Puts bytes.old at (ended (record_line (k + 2) (record_in self.now.cells.now k))) result bytes.new × (result ≡ at + (line_length + 1)) }
    {
        let cells = self.cells;
        let flag = put_right(bytes, at, NODE, k + 2);
        let low = put_column(bytes, flag, FLAG, cells::flag_at(cells, k));
        let high = put_column(bytes, low, NODE, cells::low_at(cells, k));
        let end = put_column(bytes, high, NODE, cells::high_at(cells, k));
        put_byte(bytes, end, b'\n')
    }

    // Writes the line of record k: blanks where it is not used.
    pub(crate) fn put_line_of(&self, bytes: &mut [u8], at: usize, k: u16) -> usize
        requires { at + (line_length + 1) ≤ length bytes.old }
        ensures { Puts bytes.old at (ended (line_of self.now.cells.now self.now.used k)) result bytes.new × (result ≡ at + (line_length + 1)) }
    {
        if k < self.used {
            return self.put_record(bytes, at, k);
        }
        put_unused(bytes, at)
    }
}
