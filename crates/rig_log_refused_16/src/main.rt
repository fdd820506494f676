// The program that plays a rig log, given one of 70,000 bytes: refused under 16.
#![tactic(auto)]

fn main() {
    rig_console::run();
}
