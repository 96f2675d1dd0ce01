// Reads a rule file from standard input and writes the text that is laid out for it. Only bytes are moved here.
#![tactic(auto)]

use printing::{TEXT, print};

const STANDARD_INPUT: i32 = 0;

const STANDARD_OUTPUT: i32 = 1;

// The text for a file's bytes, written. Apart from `main`, so that its 256 KB are set to 0 once: beside the loop that reads, twice.
fn write_text(file: &[u8]) {
    let mut text = [0u8; TEXT];
    let length = print(file, &mut text);
    io::write_all(STANDARD_OUTPUT, &text[..length]);
}

// 4,096 bytes are enough to know: of a file longer than 1,926 the first bytes decide.
fn main() {
    let mut input = io::buffer();
    let n = io::read_full(STANDARD_INPUT, &mut input);
    write_text(&input[..n]);
}
