// The second program's rule files, read and written by the engine: a line a call or several, and a line of output for each call. Words stand one blank apart.
//
//     f FILE            the file is these bytes
//     r CELLS           read it, and ask for its label, with so many lent cells that have 7 in each
//     v CELLS PLACE     the same with each value of the byte at a place, 0 first
//     e CELLS ADD       with ADD added, modulo 256, to each byte of the file in turn
//     s CELLS BYTE      with each byte of the file in turn set to BYTE
//     c CELLS           with the file cut to each length below its own, 0 first
//     a CELLS BYTE      with BYTE appended
//     w N ORDER USED ROOT BYTES LABEL CELLS CELL CELL ..
//                       write into so many lent bytes that have 85 in each; lent cells that are not written here are 0. The file is then what was written
//
// FILE, ORDER and LABEL are two digits to a byte, 0 to 9 and a to f, or `-` for none; what is not written of an order's ten places is 0.
// tests/second/file_lines.rs says what is printed, and the second program what it must be.
#![tactic(auto)]

mod changing;
mod input;
mod loading;
mod saving;

fn main() {
    input::run();
}
