// What a program reads: a text from its input, as much of it as there is room for.
#![tactic(auto)]

ghost use Rattle.std.specs.Prelude.{◌≤◌, length, IfOk};

use lexical::bounds::TEXT_FRONT;
use std::io;
use std::io::Read;

// How much of a text is read.
pub const INPUT: usize = TEXT_FRONT;

// Reads until the text is full or the input ends; how many bytes of it there are.
// Form 3: how far a read goes is what the input answers.
pub fn read_front<R: Read>(input: &mut R, text: &mut [u8]) -> io::Result<usize>
    ensures { IfOk result (λ n. n ≤ length text.new) }
{
    let mut done: usize = 0;
    while done < text.len() {
        let n = input.read(&mut text[done..])?;
        if n == 0 {
            return Ok(done);
        }
        done += n;
    }
    Ok(done)
}
