// Phrases: the words of explanations with what is filled in, written on a sheet. Facts come as an item's numbers and as values in slots; what is written has no promise.
#![tactic(auto)]

ghost use Rattle.std.specs.Prelude.{◌≤◌};

use crate::groups::{DEEPER, Pen};
use crate::inserts::{Insert, insert_of};
use crate::texts::{ending_byte, put_symbols, put_underlined};
use crate::words::WORDS;
use labels::Names;
pub use lines::SLOTS;
use lines::Side;
use pages::{Counts, Item};
use sheets::Sheet;
use text_places::{NEWLINE, SPACE, Span, line_start, part};

mod groups;
mod inserts;
pub mod texts;
pub mod words;

// Where names and values come from: the text with its labels, the values in their slots, and how many variables the groups have.
#[derive(Clone, Copy)]
pub struct Source<'a> {
    pub names: Names<'a>,
    pub slots: &'a [i64; SLOTS],
    pub counts: Counts,
}

const TILDE: u8 = b'~';

const PLACE: &[u8] = b"$";

// Behind the next newline.
fn next_line(words: &[u8], from: usize) -> usize
    ensures { from ≤ result }
{
    words
        .get(from..)
        .unwrap_or(&[])
        .iter()
        .position(|b| *b == NEWLINE)
        .map_or(from.max(words.len()), |k| from + k + 1)
}

// The words of the n-th phrase: behind the n-th tilde's line, up to the next tilde.
fn phrase(n: usize) -> &'static [u8] {
    let titled = WORDS
        .split(|b| *b == TILDE)
        .nth(n.saturating_add(1))
        .unwrap_or(&[]);
    &titled[next_line(titled, 0).min(titled.len())..]
}

// How many spaces the line begins with that a byte stands in.
fn margin(words: &[u8], at: usize) -> usize {
    let front = part(
        words,
        Span {
            from: line_start(words, at),
            to: at,
        },
    );
    front
        .iter()
        .position(|b| *b != SPACE)
        .unwrap_or(front.len())
}

// What is filled in.
fn put_insert(insert: Insert, indent: usize, e: &Item, pen: &mut Pen<'_>) {
    let s = pen.source;
    match insert {
        Insert::First => pen.sheet.put_number(e.n, indent),
        Insert::Second => pen.sheet.put_number(e.m, indent),
        Insert::Operation => pen.put_title(e.operation, indent),
        Insert::Part => pen.sheet.flow(
            part(s.names.text, Span { from: e.n, to: e.m }),
            indent.saturating_add(DEEPER),
        ),
        Insert::Symbols => put_symbols(e.n, indent, pen.sheet),
        Insert::Underlined => put_underlined(s.names.text, e.n, e.m, pen.sheet),
        Insert::Ending => {
            if let Some(b) = ending_byte(e.operation) {
                pen.sheet.put(b, indent);
            }
        }
        Insert::Values(side) => pen.put_values(s.group(side, e.operation), indent),
        Insert::Names(side) => pen.put_names(s.group(side, e.operation), e.n),
        Insert::Column(side, column) => pen.put_column(s.group(side, e.operation), column),
        Insert::Both => pen.put_both(
            s.group(Side::Abstract, e.operation),
            s.group(Side::Concrete, e.operation),
        ),
        Insert::Where(_) | Insert::Nothing => (),
    }
}

// What a group without variables leaves out: the rest of the line, and all of it where the line begins so.
fn rest_of_line(words: &[u8], k: usize) -> usize {
    let rest = next_line(words, k).saturating_sub(k).saturating_sub(1);
    if line_start(words, k) == k {
        return rest;
    }
    rest.saturating_sub(1)
}

// How many bytes behind a dollar sign are not written.
fn width_of(insert: Insert, words: &[u8], k: usize, operation: usize, s: &Source<'_>) -> usize {
    match insert {
        Insert::Where(side) => {
            if s.group(side, operation).count == 0 {
                return rest_of_line(words, k);
            }
            2
        }
        Insert::Values(_) | Insert::Names(_) | Insert::Column(_, _) | Insert::Nothing => 2,
        _ => 1,
    }
}

// What is filled in at a byte, where it is a dollar sign with its letters.
fn insert_at(words: &[u8], k: usize) -> Option<Insert> {
    let letters = words.get(k..)?.strip_prefix(PLACE)?;
    insert_of(letters)
}

// The phrase of an item with what is filled in.
pub fn put_phrase(e: &Item, s: &Source<'_>, out: &mut Sheet) {
    let words = phrase(e.phrase);
    let mut pen = Pen {
        source: *s,
        sheet: out,
    };
    let mut skip: usize = 0;
    for (k, b) in words.iter().enumerate() {
        if 0 < skip {
            skip -= 1;
        } else if let Some(insert) = insert_at(words, k) {
            put_insert(insert, margin(words, k), e, &mut pen);
            skip = width_of(insert, words, k, e.operation, s);
        } else {
            pen.sheet.put(*b, margin(words, k));
        }
    }
}
