// The listing program, given 1,030 rows and no line end: refused under 1.
#![tactic(auto)]

fn main() {
    console::run();
}
