// The listing program (document 01): what is printed of the table on the first line of standard input.
#![tactic(auto)]

fn main() {
    console::run();
}
