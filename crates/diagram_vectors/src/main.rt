// The second program's tables, drawn under its orders: node counts, the nodes asking each flag, a sum over the flags that all walks ask, and the
// cells. The second program says what it must write.
#![tactic(auto)]

fn main() {
    script::run();
}
