// The settled examples of document 01 that are of pack, and every refusal number of pack at its edge on both sides, with what is left in the cells and the
// workspace. What it must write is worked out from the paper.
#![tactic(auto)]

fn main() {
    script::run();
}
