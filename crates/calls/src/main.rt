// Runs a script of calls on one held check, for tests: each line of standard input is a call, each answer goes to standard output. `l LEN` and the text load it, `a N` advances, `v` asks for
// the verdict, `w LENT` for the witness in LENT lent bytes, `d` drops. Of a script the first 65,536 bytes are read. A read or a write that fails ends the program with its error.
// Form 1: the constants are lengths and a base, no kinds.
#![tactic(auto)]

ghost use Rattle.std.specs.Prelude.{◌≡◌, ◌-◌, ◌<◌, ◌≤◌, length, MatchOption};

use checker::{advance, drop, load, verdict, witness};
use held_checks::{HELD, LoadRefusal, Obligation, TEXT, Verdict, length_in};
use input_texts::read_front;
use refusals::Refusal;
use reports::{FIRST_LINE, refuted_line};
use std::io;
use std::io::Write;
use text_places::before;

// The most bytes of a script.
const SCRIPT: usize = 65536;

// The most bytes that a witness is lent here.
const LENT: usize = 65536;

const TEN: u32 = 10;

// What is left of a script.
#[derive(Drop)]
struct Script<'a> {
    rest: &'a [u8],
}

impl<'a> Script<'a> {
    // Takes n bytes, or all where there are fewer.
    fn take(&mut self, n: usize) -> &'a [u8]
        ensures { length self.new.rest.now ≡ length self.old.rest.now - n }
    {
        let (taken, rest) = self.rest.split_at(n.min(self.rest.len()));
        self.rest = rest;
        taken
    }

    // Takes a number and the byte behind it; the largest number where there is no room for it.
    fn number(&mut self) -> usize
        ensures { length self.new.rest.now ≤ length self.old.rest.now }
    {
        let rest = self.rest;
        let digits = || rest.iter().map_while(|b| char::from(*b).to_digit(TEN));
        self.take(digits().count().saturating_add(1));
        digits().fold(0, |value: usize, digit| {
            value
                .saturating_mul(TEN as usize)
                .saturating_add(digit as usize)
        })
    }

    // Takes the letter of a call and the byte behind it, where the script goes on.
    fn letter(&mut self) -> Option<u8>
        ensures { MatchOption result Unit (λ _. length self.new.rest.now < length self.old.rest.now) }
    {
        let letter = self.rest.first().copied()?;
        self.take(2);
        Some(letter)
    }
}

// Where answers go, and the held check that is asked.
#[derive(Drop)]
struct Session<'a, W> {
    output: &'a mut W,
    held: &'a mut [u8; HELD],
}

impl<W: Write> Session<'_, W> {
    fn print(&mut self, text: &[u8]) -> io::Result<()> {
        self.output.write_all(text)
    }

    fn print_number(&mut self, n: usize) -> io::Result<()> {
        writeln!(self.output, "{n}")
    }

    fn print_refused(&mut self, refusal: Refusal) -> io::Result<()> {
        let n = refusal.number();
        writeln!(self.output, "refused {n}")
    }

    fn load(&mut self, text: &[u8]) -> io::Result<()> {
        match load(text, self.held) {
            Ok(()) => self.print(b"ok\n"),
            Err(LoadRefusal::Faulty(fault)) => {
                let k = fault.refusal.number();
                let p = fault.place;
                writeln!(self.output, "refused {k} at {p}")
            }
            Err(LoadRefusal::SomethingHeld) => self.print_refused(Refusal::SomethingHeld),
        }
    }

    fn advance(&mut self, n: usize) -> io::Result<()> {
        match advance(n, self.held) {
            Ok(k) => self.print_number(k),
            Err(refusal) => self.print_refused(refusal),
        }
    }

    // The first line of the report of the held text.
    fn print_refuted(&mut self, o: Obligation) -> io::Result<()> {
        let mut line = [0u8; FIRST_LINE];
        let held: &[u8; HELD] = self.held;
        let text = before(&held[TEXT..], length_in(held));
        match refuted_line(text, o, &mut line) {
            Some(n) => self.print(before(&line, n)),
            None => Ok(()),
        }
    }

    fn verdict(&mut self) -> io::Result<()> {
        match verdict(self.held) {
            Ok(Verdict::Unfinished) => self.print(b"unfinished\n"),
            Ok(Verdict::Accepted) => self.print(b"accepted\n"),
            Ok(Verdict::Refuted(o)) => self.print_refuted(o),
            Err(refusal) => self.print_refused(refusal),
        }
    }

    // The answer of a call for the witness, and the n bytes that it was lent, at most as many as there are here.
    fn witness(&mut self, n: usize) -> io::Result<()> {
        let mut space = [b'_'; LENT];
        let lent = &mut space[..n.min(LENT)];
        match witness(self.held, lent) {
            Ok(k) => self.print_number(k)?,
            Err(refusal) => self.print_refused(refusal)?,
        }
        self.print(lent)?;
        self.print(b"\n")
    }

    fn release(&mut self) -> io::Result<()> {
        drop(self.held);
        self.print(b"ok\n")
    }

    // The call of a letter, the rest of which the script begins with.
    fn call(&mut self, letter: u8, script: &mut Script<'_>) -> io::Result<()>
        ensures { length script.new.rest.now ≤ length script.old.rest.now }
    {
        match letter {
            b'l' => {
                let n = script.number();
                let text = script.take(n);
                script.take(1);
                self.load(text)
            }
            b'a' => self.advance(script.number()),
            b'v' => self.verdict(),
            b'w' => self.witness(script.number()),
            b'd' => self.release(),
            _ => {
                script.number();
                Ok(())
            }
        }
    }

    // The calls of a script, one behind the other. Form 3: how much of the script a call takes, says the call.
    fn run(&mut self, script: &mut Script<'_>) -> io::Result<()> {
        while let Some(letter) = script.letter() {
            self.call(letter, script)?;
        }
        Ok(())
    }
}

fn main(rt: HostRuntime) -> io::Result<()> {
    let mut script = [0u8; SCRIPT];
    let n = read_front(&mut rt.stdin(), &mut script)?;
    let mut held = [0u8; HELD];
    let mut session = Session {
        output: &mut rt.stdout(),
        held: &mut held,
    };
    session.run(&mut Script { rest: &script[..n] })
}
