// The calls on single diagrams.
ghost use Rattle.std.proofs.Math.Option.{none, some};
ghost use Rattle.rule.specs.Pass.{pass_of};
ghost use Rattle.rule.specs.Calls.{Build, Check, Walks, Provokes, Tabulates};
ghost use Rattle.exports.specs.Word.{Codes};

use crate::values::{answer, walked};
use rule::{Node, Order};

// Build: the node count and the root.
#[unsafe(no_mangle)]
pub extern "C" fn engine_build(n: u8, table: &[u8], places: &[u8; 10], cells: &mut [u16]) -> u64
    ensures { Codes (λ a. Build n table.now places.now cells.old a cells.new) result }
{
    match building::build(n, table, Order { places: *places }, cells) {
        Ok(drawn) => answer(0, drawn.nodes, drawn.root.number),
        Err(refusal) => answer(refusal.number(), 0, 0),
    }
}

// Check: the node count.
#[unsafe(no_mangle)]
pub extern "C" fn engine_check(n: u8, places: &[u8; 10], cells: &[u16], used: u16, root: u16) -> u64
    ensures { Codes (Check n places.now cells.now used root) result }
{
    match checking::check(
        n,
        Order { places: *places },
        cells,
        used,
        Node { number: root },
    ) {
        Ok(nodes) => answer(0, nodes, 0),
        Err(refusal) => answer(refusal.number(), 0, 0),
    }
}

// Walk, with a pass rule or without: the answer, the set of the flags asked, and their number.
fn walk(
    n: u8,
    places: &[u8; 10],
    cells: &[u16],
    used: u16,
    node: u16,
    pass: Option<Node>,
    row: u16,
) -> u64
    ensures { Codes (Walks n places.now cells.now used node (pass_of pass) row) result }
{
    match walking::walk(
        n,
        Order { places: *places },
        cells,
        used,
        Node { number: node },
        pass,
        row,
    ) {
        Ok(said) => walked(said.answer, said.asked, said.count),
        Err(refusal) => answer(refusal.number(), 0, 0),
    }
}

// Walk without a pass rule.
#[unsafe(no_mangle)]
pub extern "C" fn engine_walk(
    n: u8,
    places: &[u8; 10],
    cells: &[u16],
    used: u16,
    node: u16,
    row: u16,
) -> u64
    ensures { Codes (Walks n places.now cells.now used node none row) result }
{
    walk(n, places, cells, used, node, None, row)
}

// Walk under a pass rule's node.
#[unsafe(no_mangle)]
pub extern "C" fn engine_walk_under(
    n: u8,
    places: &[u8; 10],
    cells: &[u16],
    used: u16,
    node: u16,
    pass: u16,
    row: u16,
) -> u64
    ensures { Codes (Walks n places.now cells.now used node (some pass) row) result }
{
    walk(
        n,
        places,
        cells,
        used,
        node,
        Some(Node { number: pass }),
        row,
    )
}

// Tabulate: no value.
#[unsafe(no_mangle)]
pub extern "C" fn engine_tabulate(
    n: u8,
    places: &[u8; 10],
    cells: &[u16],
    used: u16,
    node: u16,
    bytes: &mut [u8],
) -> u64
    ensures { Codes (λ a. Tabulates n places.now cells.now used node bytes.old a bytes.new) result }
{
    match walking::tabulate(
        n,
        Order { places: *places },
        cells,
        used,
        Node { number: node },
        bytes,
    ) {
        Ok(()) => answer(0, 0, 0),
        Err(refusal) => answer(refusal.number(), 0, 0),
    }
}

// Provoke: the row.
#[unsafe(no_mangle)]
pub extern "C" fn engine_provoke(
    n: u8,
    places: &[u8; 10],
    cells: &[u16],
    used: u16,
    node: u16,
    wanted: u16,
    pass: u16,
    fixed: u16,
    ones: u16,
) -> u64
    ensures { Codes (Provokes n places.now cells.now used node wanted pass fixed ones) result }
{
    match provoking::provoke(
        n,
        Order { places: *places },
        cells,
        used,
        Node { number: node },
        wanted,
        Node { number: pass },
        fixed,
        ones,
    ) {
        Ok(row) => answer(0, row, 0),
        Err(refusal) => answer(refusal.number(), 0, 0),
    }
}
