// The program that plays a rig log (document 02, request 9): the tally of the log behind the table on the first line of standard input.
#![tactic(auto)]

fn main() {
    rig_console::run();
}
