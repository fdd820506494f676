// The program that plays a rig log, given a table that ends with the input: the log is empty.
#![tactic(auto)]

fn main() {
    rig_console::run();
}
