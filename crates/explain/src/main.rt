// Reads a dossier on standard input and writes its explanation to standard output. Of a text that is too long only the first 32,769 bytes are read, which is enough to see that it is.
// A read or a write that fails ends the program with its error.
// Form 2: `main` of `dossier` reads by the same two lines and writes what `reports::report` leaves in an array, for which no room need be said here. One function for both would take
// what makes the bytes as a closure with its promise, and be no shorter than what is left here beside `input_texts::read_front`.
#![tactic(auto)]

use explanations::explain;
use input_texts::{INPUT, read_front};
use std::io;
use std::io::Write;

fn main(rt: HostRuntime) -> io::Result<()> {
    let mut text = [0u8; INPUT];
    let n = read_front(&mut rt.stdin(), &mut text)?;
    let sheet = explain(&text[..n]);
    rt.stdout().write_all(sheet.as_slice())
}
