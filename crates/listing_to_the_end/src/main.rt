// The listing program, given a table that ends with the input.
#![tactic(auto)]

fn main() {
    console::run();
}
