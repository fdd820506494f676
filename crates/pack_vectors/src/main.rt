// The second program's packed tables, for which it tried every order.
#![tactic(auto)]

fn main() {
    script::run();
}
