// The second program's lists of store calls, played on the engine's store. tests/second/play.rs has the language, and says what it must write.
#![tactic(auto)]

mod calling;
mod reading;

fn main() {
    reading::run();
}
