ghost use Rattle.std.specs.Prelude.{◌≡◌, ◌+◌, ◌*◌, ◌≤◌, ◌<◌, length};
ghost use mathlib.Core.List.{map, flat_map};
ghost use Rattle.rule.specs.Bits.{from};
ghost use Rattle.rule.specs.Sheet.{line_length, record_lines, page_bytes, line_of, page_of, ended};
ghost use Rattle.runs.specs.Run.{Puts};

use crate::line::{LINE, Sheet, put_last};
use runs::put_run;

// The record lines of a page.
pub const RECORD_LINES: u16 = 58;

// The bytes of a page: those lines, a first and a last one, each with its end.
pub const PAGE_BYTES: usize = (RECORD_LINES as usize + 2) * (LINE + 1);

impl Sheet<'_> {
    // Writes the record lines of a page, from a record on.
    fn put_lines(&self, bytes: &mut [u8], at: usize, first: u16) -> usize
        requires { (first + record_lines < 65536) × (at + record_lines * (line_length + 1) ≤ length bytes.old) }
        ensures { Puts bytes.old at (flat_map ended (map (line_of self.now.cells.now self.now.used) (from first record_lines))) result bytes.new × (result ≡ at + record_lines * (line_length + 1)) }
    {
        let mut next = at;
        for k in first..first + RECORD_LINES {
            next = self.put_line_of(bytes, next, k);
        }
        next
    }

    // Writes the page behind so many others.
    pub fn put_page(&self, bytes: &mut [u8], at: usize, before: u16) -> usize
        requires { ((before + 1) * record_lines < 65536) × (at + page_bytes ≤ length bytes.old) }
        ensures { Puts bytes.old at (flat_map ended (page_of (line_of self.now.cells.now self.now.used) before)) result bytes.new × (result ≡ at + page_bytes) }
    {
        let records = put_run(bytes, at, b" node fl   low  high\n");
        let last = self.put_lines(bytes, records, before * RECORD_LINES);
        put_last(bytes, last, before + 1)
    }
}
