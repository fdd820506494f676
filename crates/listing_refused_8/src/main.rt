// The listing program, given ten flags, up to the end of the input: refused under 8.
#![tactic(auto)]

fn main() {
    console::run();
}
