// Whether every used record can be reached from the root (document 01, "Tables, orders, nodes"), by one mark for each record that is a child.
#![tactic(auto)]

ghost use Rattle.std.specs.Prelude.{◌≡◌, true, false, ◌+◌, ◌≤◌, ◌<◌, take, replicate};
ghost use Rattle.std.specs.List.{list_all};
ghost use Rattle.rule.specs.Cells.{most_records, room};
ghost use Rattle.rule.specs.Sound.{children_smaller};
ghost use Rattle.rule.specs.Diagram.{all_reached};
ghost use Rattle.reach.specs.Mark.{mark, Marked};

// One mark for each record.
const MARKS: usize = cells::RECORDS;

// Marks the record of a node. An end node has none.
#[tactic(auto, unfolding(crate::specs::Mark::mark))]
fn mark(marks: &mut [bool; MARKS], node: u16)
    requires { node < 1026 }
    ensures { marks.new ≡ mark marks.old node }
{
    if 2 <= node {
        marks[node as usize - 2] = true;
    }
}

// Marks each record that is the child of a used one.
fn mark_children(cells: &[u16], used: u16, marks: &mut [bool; MARKS])
    requires { (used ≤ room cells.now) × (room cells.now ≤ most_records) × (children_smaller cells.now used ≡ true) × (marks.old ≡ replicate most_records false) }
    ensures { Marked cells.now used marks.new }
{
    for j in 0..used {
        mark(marks, cells::low_at(cells, j));
        mark(marks, cells::high_at(cells, j));
    }
}

// Whether each record below `last` is marked.
fn all_marked(marks: &[bool; MARKS], last: u16) -> bool
    requires { last ≤ most_records }
    ensures { result ≡ list_all (λ marked. marked) (take last marks.now) }
{
    marks[..last as usize].iter().all(|marked| *marked)
}

// Whether every used record can be reached from the root: the root is the last one, and every other is
// some record's child, where children stand before their parents.
#[tactic(auto, using(crate::proofs::Reached::reached_none, crate::proofs::Reached::reached_short, crate::proofs::Reached::reached_last))]
pub fn all_reached(cells: &[u16], used: u16, root: u16) -> bool
    requires { (used ≤ room cells.now) × (room cells.now ≤ most_records) × (children_smaller cells.now used ≡ true) × (root ≤ used + 1) }
    ensures { result ≡ all_reached cells.now used root }
{
    if used == 0 {
        return true;
    }
    if root <= used {
        return false;
    }
    let mut marks = [false; MARKS];
    mark_children(cells, used, &mut marks);
    all_marked(&marks, used - 1)
}
