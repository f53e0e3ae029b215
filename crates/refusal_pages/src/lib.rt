// The page of a refused text: where it was refused, by which rule, and a hint by the number of the refusal.
// Form 5: the symbols and the page go together through six functions here and three of `refusal_sides` and `refusal_hints`. A struct of both would have its methods in its own crate alone, so that
// each of these functions would take it as one parameter in place of two, and take it apart at each use. Of the six here five take the number of a symbol too: a struct of the symbols and that
// number would be taken apart in the same manner, since all that these five ask of `refusal_hints` takes both, one by one.
#![tactic(auto)]

use lexical::bounds::{PAIRS, PARAMETER_BINDINGS, RANGE_NUMBERS, STATE_BINDINGS};
use lexical::codes;
use pages::Page;
use phrases::words;
use refusal_hints::amounts::{bindings, pairs, parameter_bindings, range_numbers};
use refusal_hints::headings::{first_declared, passed, wanted};
use refusal_hints::reaches::say_names;
use refusal_hints::samples::could_stand;
use refusal_sides::{Told, say_sides};
use refusals::{Fault, Refusal};
use symbol_spans::{SymbolArrays, Symbols};
use symbols::scan;
use text_places::{column_of, line_of, symbol_end};

// Where it was refused, in words and underlined.
fn say_place(text: &[u8], p: usize, page: &mut Page) {
    let (place, underlined) = if text.len() <= p {
        (words::THE_PLACE_AT_THE_END, 1)
    } else {
        (words::THE_PLACE, symbol_end(text, p).saturating_sub(p))
    };
    page.say_of(place, 0, line_of(text, p), column_of(text, p));
    page.say_of(words::THE_LINE_UNDERLINED, 0, p, underlined);
}

// Number 7, at symbol s.
fn say_heading(y: &Symbols<'_>, s: usize, page: &mut Page) {
    match wanted(y, s) {
        Some(b) => page.say_of(words::THE_ENTRY_OF_THE_CONTENTS, 0, b.from, b.to),
        None => page.say(words::NO_FURTHER_ENTRY),
    }
}

// Number 8.
fn say_use(y: &Symbols<'_>, s: usize, page: &mut Page) {
    if let Some(k) = first_declared(y, s) {
        let q = y.start(k);
        page.say_of(
            words::IN_USE_SINCE,
            0,
            line_of(y.text, q),
            column_of(y.text, q),
        );
    }
}

// Number 11.
fn say_range(y: &Symbols<'_>, s: usize, page: &mut Page) {
    match range_numbers(y, s) {
        0 => page.say(words::FIRST_END_LARGER),
        n => page.say_of(words::NUMBERS_OF_A_RANGE, 0, n, RANGE_NUMBERS as usize),
    }
}

fn say_pairs(n: usize, page: &mut Page) {
    page.say_of(words::PAIRS_OF_A_TYPE, 0, n, PAIRS as usize);
}

fn say_amount(y: &Symbols<'_>, s: usize, page: &mut Page) {
    let next = s.saturating_add(1);
    match y.kind(s) {
        codes::UP_TO => say_range(y, s, page),
        codes::RELATION..=codes::TOTAL => say_pairs(pairs(y, s.saturating_sub(1), next), page),
        codes::EMPTY => say_pairs(pairs(y, next, s.saturating_add(2)), page),
        _ => (),
    }
}

// Number 12: so many bindings of a group, and how many it may have.
fn say_count(bindings: Option<usize>, most: usize, page: &mut Page) {
    match bindings {
        Some(n) => page.say_of(words::BINDINGS_OF_A_GROUP, 0, n, most),
        None => page.say_of(words::BINDINGS_NOT_TOLD, 0, most, most),
    }
}

fn say_bindings(y: &Symbols<'_>, s: usize, page: &mut Page) {
    if y.kind(s) == codes::OP {
        say_count(parameter_bindings(y, s), PARAMETER_BINDINGS as usize, page);
    } else {
        say_count(bindings(y, s, codes::PLAIN), STATE_BINDINGS as usize, page);
    }
}

// A hint, by the refusal.
fn say_hint(y: &Symbols<'_>, f: Fault, page: &mut Page) {
    let p = f.place;
    let s = y.before_byte(p);
    match f.refusal {
        Refusal::NoDossier => page.say_of(words::COULD_STAND, 0, could_stand(y.text, p), 0),
        Refusal::ManyDeclared => page.say(passed(y, s)),
        Refusal::HeadingDiffers => say_heading(y, s, page),
        Refusal::NameInUse => say_use(y, s, page),
        Refusal::NameUnknown => say_names(y, p, page),
        Refusal::TypesMisfit => say_sides(y, s, Told::Types, page),
        Refusal::WideType => say_amount(y, s, page),
        Refusal::ManyBindings => say_bindings(y, s, page),
        Refusal::LargeSize => say_sides(y, s, Told::Sizes, page),
        _ => (),
    }
}

// The same, by the symbols of the text.
fn say_hint_for(text: &[u8], f: Fault, page: &mut Page) {
    let mut a = SymbolArrays::new();
    let _ = scan(text, &mut a.kinds, &mut a.starts, &mut a.values);
    say_hint(&a.symbols(text), f, page);
}

// All that is said of a refusal.
pub fn say_refusal(text: &[u8], f: Fault, page: &mut Page) {
    let rule = usize::from(f.refusal.number());
    page.say_of(words::REFUSED, 0, rule, f.place);
    say_place(text, f.place, page);
    page.say(words::RULE_1.saturating_add(rule).saturating_sub(1));
    say_hint_for(text, f, page);
}
