// The settled examples of document 01 that are not proved, and every refusal number of build, check, walk and tabulate, at its edge on both sides; and
// the flags that walks ask (request 2), lent cells in other permitted sequences (request 3), and walks under pass rules (request 5). What it must write is
// worked out from the papers.
#![tactic(auto)]

fn main() {
    script::run();
}
