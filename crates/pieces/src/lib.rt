// Pieces of text in lent bytes, one behind the other.
#![tactic(auto)]

ghost use Rattle.std.specs.Prelude.{[], ◌∷◌, ◌+◌, ◌≤◌, ◌<◌, length};
ghost use Rattle.obligations.specs.Report.{decimal, signed_decimal};
ghost use Rattle.pieces.specs.PiecePromises.{Adds, letters_at};

use itoa::{Buffer, Integer};
use lexical::bounds::NAME_LETTERS;
use lexical::classes::run_from;

// Lent bytes, and the place behind what stands in them: each method writes from there on and touches no other byte.
#[derive(Drop)]
pub struct Writer<'a> {
    pub out: &'a mut [u8],
    pub at: usize,
}

impl<'a> Writer<'a> {
    // One byte.
    pub fn put(&mut self, b: u8)
        requires { self.old.at < length self.old.out.now }
        ensures { Adds (b ∷ []) self.old self.new }
    {
        self.out[self.at] = b;
        self.at += 1;
    }

    // All bytes of a text.
    pub fn put_all(&mut self, text: &[u8])
        requires { self.old.at + length text.now ≤ length self.old.out.now }
        ensures { Adds text.now self.old self.new }
    {
        let end = self.at + text.len();
        self.out[self.at..end].copy_from_slice(text);
        self.at = end;
    }

    // The letters and digits that stand from a place of the text on, as many as a name has.
    pub fn put_letters(&mut self, text: &[u8], from: usize)
        requires { self.old.at + 16 ≤ length self.old.out.now }
        ensures { Adds (letters_at text.now from) self.old self.new }
    {
        let n = run_from(text, from).min(NAME_LETTERS);
        if n > 0 {
            self.put_all(&text[from..from + n]);
        }
    }

    // A number as std prints it.
    fn put_number<I: Integer>(&mut self, n: I)
        requires { self.old.at + length (I.text n) ≤ length self.old.out.now }
        ensures { Adds (I.text n) self.old self.new }
    {
        let mut digits = Buffer::new();
        self.put_all(digits.format(n).as_bytes());
    }

    // A number in decimal.
    pub fn put_decimal(&mut self, n: u64)
        requires { self.old.at + 20 ≤ length self.old.out.now }
        ensures { Adds (decimal n) self.old self.new }
    {
        self.put_number(n);
    }

    // A number that may be below 0.
    // Form 2: what it shares with `put_decimal` is `put_number`; each promises the definitions' word for its type, with room of its own.
    pub fn put_signed(&mut self, x: i64)
        requires { self.old.at + 21 ≤ length self.old.out.now }
        ensures { Adds (signed_decimal x) self.old self.new }
    {
        self.put_number(x);
    }
}
