// The listing program, given no input: refused under 2.
#![tactic(auto)]

fn main() {
    console::run();
}
