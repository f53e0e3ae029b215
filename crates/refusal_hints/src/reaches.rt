// Number 9: which names are in reach at a place. Each name that is declared in the text is tried there, plain and with each ending; where that is not refused by 9 at the same place, it is in
// reach.
use crate::samples::{Sample, is_past};
use lexical::bounds::SYMBOLS;
use lexical::{Ending, codes};
use lines::byte_of;
use pages::Page;
use phrases::texts::ENDINGS;
use phrases::words;
use refusals::{Fault, Refusal};
use symbol_spans::{Symbols, is_name};
use text_places::{Span, part, run_end, symbol_at};
use tried_texts::tried;

// Are the letters of a span, with an ending, in reach in the place of the symbol at p? Refusals of passes before say nothing of it.
fn reaches(text: &[u8], p: usize, letters: Span, ending: Ending) -> bool {
    let mut sample = Sample::new();
    sample.put_all(part(text, letters));
    if let Some(b) = byte_of(ending) {
        sample.put(b);
    }
    let answer = tried(text, symbol_at(text, p), sample.as_slice());
    let unknown = Fault {
        refusal: Refusal::NameUnknown,
        place: p,
    };
    is_past(answer, Refusal::NameInUse, unknown)
}

// The next name on the page, which had so many items before the first one; its ending by the place among all endings, since a page has numbers.
fn say_name(page: &mut Page, before: usize, ending: usize, letters: Span) {
    let phrase = if page.items().len() == before {
        words::A_FIRST_NAME
    } else {
        words::A_FURTHER_NAME
    };
    page.say_of(phrase, ending, letters.from, letters.to);
}

// Does a name that is declared stand at symbol s: before a colon, behind `given`, or in a list of elements?
pub fn is_declared(y: &Symbols<'_>, s: usize) -> bool {
    let before = y.kind_before(s);
    is_name(y.kind(s))
        && (before == codes::GIVEN
            || is_name(before)
            || y.kind(s.saturating_add(1)) == codes::COLON)
}

// Is the name at symbol s declared, and none before it with the same letters?
fn is_new(y: &Symbols<'_>, s: usize) -> bool {
    is_declared(y, s) && !(0..s).any(|k| y.has_same_letters(k, s) && is_declared(y, k))
}

// The letters at symbol s with each ending that is in reach in the place of the symbol at p, on a page that had so many items before the first name.
fn say_letters(y: &Symbols<'_>, p: usize, s: usize, before: usize, page: &mut Page) {
    let from = y.start(s);
    let letters = Span {
        from,
        to: run_end(y.text, from),
    };
    for (n, ending) in ENDINGS.iter().enumerate() {
        if reaches(y.text, p, letters, *ending) {
            say_name(page, before, n, letters);
        }
    }
}

// The names that are in reach in the place of the symbol at p.
pub fn say_names(y: &Symbols<'_>, p: usize, page: &mut Page) {
    page.say(words::IN_REACH);
    let before = page.items().len();
    for s in 0..SYMBOLS {
        if is_new(y, s) {
            say_letters(y, p, s, before, page);
        }
    }
    if page.items().len() == before {
        page.say(words::NONE_IN_REACH);
    } else {
        page.say(words::END_OF_NAMES);
    }
}
