// The listing program, given nine flags with another character among them: refused under 3.
#![tactic(auto)]

fn main() {
    console::run();
}
