// Pack.
ghost use Rattle.rule.specs.Calls.{Pack};
ghost use Rattle.exports.specs.Word.{CodesOrder};

use crate::values::answer;

// Pack: the order goes into ten lent bytes, which stay as they are where it is refused; the node count and the root.
#[unsafe(no_mangle)]
pub extern "C" fn engine_pack(
    n: u8,
    table: &[u8],
    places: &mut [u8; 10],
    cells: &mut [u16],
    workspace: &mut [u16],
) -> u64
    ensures { CodesOrder (λ a. Pack n table.now cells.old workspace.old a cells.new workspace.new) places.old result places.new }
{
    match packing::pack(n, table, cells, workspace) {
        Ok(packed) => {
            let found = packed.order.places;
            *places = found;
            answer(0, packed.drawn.nodes, packed.drawn.root.number)
        }
        Err(refusal) => answer(refusal.number(), 0, 0),
    }
}
