// Trials of one side of an operator: the atom that the operator stands in is replaced by an equation with that side.
use lexical::bounds::{LARGEST_SIZE, SYMBOLS};
use lexical::codes;
use refusal_hints::samples::{Sample, is_past};
use refusals::{Fault, Refusal};
use symbol_spans::{Symbols, is_name};
use text_places::{Span, part, symbol_at};
use tried_texts::tried;

// The digits of a size.
// Form 1: lengths and limits of the numbers that are tried, no kinds.
const DIGITS: usize = 10;

const TEN: usize = 10;

const LARGEST: usize = LARGEST_SIZE as usize;

// The bits of a size.
const BITS: usize = 31;

// A side that is tried: the text and its symbols, the bytes of the side, and those of the atom that it stands in.
#[derive(Clone, Copy)]
pub struct Trial<'a> {
    pub symbols: Symbols<'a>,
    pub own: Span,
    pub atom: Span,
}

// A term of some type, by the places of names in the text: a number; an element of a given set, by the names of both; a set of elements; a set of pairs, by the given sets of their parts.
// Form 1: four cases of its own, no Option or Result.
#[derive(Clone, Copy)]
pub enum Term {
    Number,
    Element(usize, usize),
    Set(usize),
    Pairs(usize, usize),
}

fn put_name(text: &[u8], from: usize, out: &mut Sample) {
    out.put_all(part(text, symbol_at(text, from)));
}

// The term behind a blank.
fn put_term(text: &[u8], t: Term, out: &mut Sample) {
    match t {
        Term::Number => out.put_all(b" 0"),
        Term::Element(_, element) => {
            out.put(b' ');
            put_name(text, element, out);
        }
        Term::Set(set) => {
            out.put_all(b" empty ");
            put_name(text, set, out);
        }
        Term::Pairs(first, second) => {
            out.put_all(b" empty ");
            put_name(text, first, out);
            out.put(b' ');
            put_name(text, second, out);
        }
    }
}

// A digit as a byte.
// Form 4: the sum begins with the last digit and has ten of them, so that all numbers make texts of one form. `itoa` of the kit writes the first digit first, and no zeros before it: there would
// stand its buffer, its bytes in reverse, a chain of zeros behind them and a `zip` with the weights, in place of `% TEN` and `/= TEN`. A table of the weights has the lines of their `match`.
fn digit(n: usize) -> u8 {
    b'0' + (n % TEN) as u8
}

// Ten to the power k as factors: the largest number that can be written is 1000.
fn weight(k: usize) -> &'static [u8] {
    match k {
        0 => b"",
        1 => b"*10",
        2 => b"*100",
        3 => b"*1000",
        4 => b"*10*1000",
        5 => b"*100*1000",
        6 => b"*1000*1000",
        7 => b"*10*1000*1000",
        8 => b"*100*1000*1000",
        _ => b"*1000*1000*1000",
    }
}

// A number as a sum of its digits with their weights, behind a plus.
fn put_sum(number: usize, out: &mut Sample) {
    let mut n = number;
    for k in 0..DIGITS {
        out.put(b'+');
        out.put(digit(n));
        out.put_all(weight(k));
        n /= TEN;
    }
}

// Does the body of a given set begin at symbol s? An entry of the contents has no element.
fn is_set(y: &Symbols<'_>, s: usize) -> bool {
    y.kind(s) == codes::GIVEN && is_name(y.kind(s.saturating_add(2)))
}

impl Trial<'_> {
    // The side in brackets.
    fn bracketed(&self) -> Sample {
        let mut out = Sample::new();
        out.put(b'[');
        out.put_all(part(self.symbols.text, self.own));
        out.put(b']');
        out
    }

    // What reading answers with these words in the place of the side's atom.
    fn answer_with(&self, words: &Sample) -> Option<Fault> {
        tried(self.symbols.text, self.atom, words.as_slice())
    }

    // Is the side of the type of a term? Refusals of passes before say nothing of it.
    pub fn fits(&self, t: Term) -> bool {
        let mut words = self.bracketed();
        let sign = self.atom.from.saturating_add(words.as_slice().len());
        words.put(b'=');
        put_term(self.symbols.text, t, &mut words);
        let misfit = Fault {
            refusal: Refusal::TypesMisfit,
            place: sign,
        };
        is_past(self.answer_with(&words), Refusal::NameInUse, misfit)
    }

    // The sets of pairs that the side is of, where their first parts are of the given set whose name stands at a byte.
    fn pairs_from(&self, first: usize) -> Option<Term> {
        let y = self.symbols;
        (0..SYMBOLS)
            .filter(|&s| is_set(&y, s))
            .map(|s| Term::Pairs(first, y.start(s.saturating_add(1))))
            .find(|&pairs| self.fits(pairs))
    }

    // The type of the given set at symbol s that the side is of.
    fn type_by(&self, s: usize) -> Option<Term> {
        let name = self.symbols.start(s.saturating_add(1));
        let element = Term::Element(name, self.symbols.start(s.saturating_add(2)));
        if self.fits(element) {
            return Some(element);
        }
        let set = Term::Set(name);
        if self.fits(set) {
            return Some(set);
        }
        self.pairs_from(name)
    }

    // The type that the side is of.
    pub(crate) fn type_of(&self) -> Option<Term> {
        if self.fits(Term::Number) {
            return Some(Term::Number);
        }
        (0..SYMBOLS)
            .filter(|&s| is_set(&self.symbols, s))
            .find_map(|s| self.type_by(s))
    }

    // Is the sum of the side and a number refused as too large?
    fn is_over(&self, number: usize) -> bool {
        let mut words = self.bracketed();
        put_sum(number, &mut words);
        words.put_all(b"=0");
        let from = self.atom.from;
        let end = from.saturating_add(words.as_slice().len());
        self.answer_with(&words).is_some_and(|f| f.refusal == Refusal::LargeSize
            && (from..end).contains(&f.place))
    }

    // The size of the side: what the largest size is more than the largest number with which the side is not too large, found bit by bit.
    pub fn size(&self) -> usize {
        let mut low: usize = 0;
        for k in (0..BITS).rev() {
            let more = low.saturating_add(1 << k);
            if !self.is_over(more) {
                low = more;
            }
        }
        LARGEST.saturating_sub(low)
    }
}
