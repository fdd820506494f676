ghost use Rattle.std.specs.Prelude.{◌≡◌, true, [], ◌∷◌, ◌^◌, ◌≤◌, length};
ghost use Rattle.rule.specs.Table.{fit_rows};
ghost use Rattle.rule.specs.Refusals.{refusal};
ghost use Rattle.rule.specs.Listing.{flags_of, rows_of, short_workspace, listing_rows, listed_or, listing};
ghost use Rattle.runs.specs.Run.{Puts};
ghost use Rattle.report.specs.Report.{most_printed};

use parsing::{MOST_ROWS, flags_of, line_end, read_rows, test_line};
use report::{PRINTED, put_report};
use runs::put_line;

// "The workspace is 6,561 cells": too few for nine flags, which pack then refuses.
const WORKSPACE: usize = 6561;

// Writes what is printed of a table: its listing, or why pack refuses it.
fn list_table(n: u8, table: &[u8], out: &mut [u8]) -> usize
    requires { (n ≤ 10) × (length table.now ≡ 2 ^ n) × (fit_rows table.now ≡ true) × (most_printed ≤ length out.old) }
    ensures { Puts out.old 0 (listed_or (refusal (short_workspace n ∷ [])) n table.now) result out.new }
{
    let mut cells = [0u16; cells::MOST];
    let mut workspace = [0u16; WORKSPACE];
    match packing::pack(n, table, &mut cells, &mut workspace) {
        Ok(packed) => put_report(out, n, table, packed.order, &cells, packed.drawn.nodes),
        Err(refusal) => put_line(out, 0, b"refused", refusal.number() as u16),
    }
}

// Writes what is printed of a line.
fn list_line(line: &[u8], out: &mut [u8]) -> usize
    requires { most_printed ≤ length out.old }
    ensures { Puts out.old 0 (listed_or (refusal (listing_rows line.now)) (flags_of line.now) (rows_of line.now)) result out.new }
{
    if let Err(refusal) = test_line(line) {
        return put_line(out, 0, b"refused", refusal.number() as u16);
    }
    // kept: rig_tally has these lines too. A function for both would be lent the table and hand back a part of it: its contract alone is longer.
    let mut table = [0u8; MOST_ROWS];
    let rows = &mut table[..line.len()];
    read_rows(line, rows);
    list_table(flags_of(line.len()), rows, out)
}

// The listing of an input, in the first of the lent bytes; how many they are.
pub fn listing(input: &[u8], out: &mut [u8; PRINTED]) -> usize
    ensures { Puts out.old 0 (listing input.now) result out.new × (result ≤ length out.new) }
{
    let end = line_end(input);
    list_line(&input[0..end], out)
}
