// The program that plays a rig log, given a row that the table does not have: refused under 9.
#![tactic(auto)]

fn main() {
    rig_console::run();
}
