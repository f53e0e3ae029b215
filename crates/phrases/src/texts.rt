// What is shown of the text of a dossier, and of the symbols of its language.
ghost use Rattle.std.specs.Prelude.{◌≡◌, Some, None};

use crate::groups::has_bit;
use crate::words::SPELLINGS;
use lexical::Ending;
use lines::byte_of;
use sheets::Sheet;
use text_places::{NEWLINE, SPACE, Span, before, line_start, part};

// How many codes of symbols there are.
// Form 1: the constants from here on are a count and widths.
pub const CODES: usize = 64;

// A line of the text is indented so far, shown so long, at most so much of it before the byte, and at most so many bytes are underlined.
const MARGIN: usize = 4;

const SHOWN: usize = 92;

const BEFORE: usize = 60;

const UNDERLINE: usize = 20;

// The endings of names. On a page an ending is its place among them.
pub const ENDINGS: [Ending; 4] = [Ending::Plain, Ending::Prime, Ending::Query, Ending::Shriek];

// The byte of an ending, by its number on a page.
pub fn ending_byte(ending: usize) -> Option<u8>
    ensures prime { ending ≡ 1 → result ≡ Some 39 }
    ensures query { ending ≡ 2 → result ≡ Some 63 }
    ensures shriek { ending ≡ 3 → result ≡ Some 33 }
    ensures none { ending ≡ 0 → result ≡ None }
{
    byte_of(*ENDINGS.get(ending)?)
}

// The n-th of some words, with a space behind each.
pub fn word(words: &[u8], n: usize) -> &[u8] {
    words.split(|b| *b == SPACE).nth(n).unwrap_or(&[])
}

// The symbols that the bits have, a space before each.
pub(crate) fn put_symbols(bits: usize, indent: usize, out: &mut Sheet) {
    for k in 0..CODES {
        if has_bit(bits, k) {
            out.put(SPACE, indent);
            out.flow(word(SPELLINGS, k), indent);
        }
    }
}

// A byte of a text that is shown: what is no letter, digit or mark by a question mark.
fn shown(b: u8) -> u8 {
    match b {
        b' '..=b'~' => b,
        _ => b'?',
    }
}

// The text from a byte on up to the line's end, as much as there is room for; nothing for an empty line.
fn put_shown(text: &[u8], from: usize, out: &mut Sheet) {
    let rest = part(
        text,
        Span {
            from,
            to: from.saturating_add(SHOWN),
        },
    );
    let end = rest
        .iter()
        .position(|b| *b == NEWLINE)
        .unwrap_or(rest.len());
    if 0 < end {
        out.repeat(SPACE, MARGIN);
    }
    for b in before(rest, end) {
        out.put(shown(*b), 0);
    }
}

// The text's line at a byte, with n bytes underlined.
pub(crate) fn put_underlined(text: &[u8], p: usize, n: usize, out: &mut Sheet) {
    let from = line_start(text, p).max(p.saturating_sub(BEFORE));
    put_shown(text, from, out);
    out.put(NEWLINE, 0);
    out.repeat(SPACE, p.saturating_sub(from).saturating_add(MARGIN));
    out.repeat(b'^', n.min(UNDERLINE));
}
