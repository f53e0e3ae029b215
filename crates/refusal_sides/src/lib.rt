// Numbers 10 and 13: the two sides of an operator, and what they are. Each type is tried: the atom that the operator stands in is replaced by an equation of the side with a term of that type,
// and where this is not refused by 10 at its sign, the side is of that type. Sizes are tried in the same manner, by sums that are refused by 13.
#![tactic(auto)]

use crate::trials::{Term, Trial};
use lexical::codes;
use pages::Page;
use phrases::words;
use symbol_spans::{Symbols, Tightness, tightness_of};
use text_places::{Span, symbol_end};

pub mod trials;

// What is said of the sides of an operator.
// Form 1: two cases of its own, no Option or Result.
// Form 7: what is said is chosen at one place, behind the walk to each side; a closure in its stead would go through the same functions, each of which would ask for what it needs (`F.pre`).
#[derive(Clone, Copy, PartialEq, Eq)]
pub enum Told {
    Types,
    Sizes,
}

// A phrase with the name that stands at a byte of the text.
fn say_with_name(text: &[u8], phrase: usize, name: usize, page: &mut Page) {
    page.say_of(phrase, 0, name, symbol_end(text, name));
}

// The type of a side on the page.
fn say_type(text: &[u8], t: Option<Term>, page: &mut Page) {
    match t {
        Some(Term::Number) => page.say(words::A_NUMBER),
        Some(Term::Element(set, _)) => say_with_name(text, words::AN_ELEMENT, set, page),
        Some(Term::Set(set)) => say_with_name(text, words::A_SET_OF_ELEMENTS, set, page),
        Some(Term::Pairs(first, second)) => {
            say_with_name(text, words::A_SET_OF_PAIRS, first, page);
            say_with_name(text, words::THE_SECOND_SET, second, page);
        }
        None => page.say(words::OF_NO_TYPE),
    }
}

// How tight must bind what belongs to the right side?
fn right_tightness(y: &Symbols<'_>, s: usize) -> Tightness {
    if y.is_prefix(s) {
        return Tightness::Inside;
    }
    match tightness_of(y.kind(s)) {
        Tightness::Loose => Tightness::Comparison,
        Tightness::Comparison => Tightness::Sum,
        Tightness::Sum => Tightness::Product,
        Tightness::Product | Tightness::Inside => Tightness::Inside,
    }
}

// The side before symbol s: comparisons are not repeated.
fn left_of(y: &Symbols<'_>, s: usize) -> Span {
    let least = tightness_of(y.kind(s)).max(Tightness::Sum);
    Span {
        from: y.left_from(s, least),
        to: s,
    }
}

// The side behind symbol s.
fn right_of(y: &Symbols<'_>, s: usize) -> Span {
    let from = s.saturating_add(1);
    Span {
        from,
        to: y.right_to(from, right_tightness(y, s)),
    }
}

// Is it a range, which has no type?
fn is_range(y: &Symbols<'_>, t: Span) -> bool {
    y.count_before(codes::UP_TO, t.from) < y.count_before(codes::UP_TO, t.to)
}

// What is said of the sides of the operator at symbol s.
#[derive(Clone, Copy)]
struct Sides<'a> {
    symbols: Symbols<'a>,
    s: usize,
    told: Told,
}

impl Sides<'_> {
    // The symbols of a side on the page: their bytes, and their size or type.
    fn say_side(&self, side: Span, title: usize, page: &mut Page) {
        let y = self.symbols;
        let x = Trial {
            symbols: y,
            own: y.bytes(side),
            atom: y.bytes(y.atom(self.s)),
        };
        page.say_of(title, 0, x.own.from, x.own.to);
        match self.told {
            Told::Sizes => page.say_of(words::A_SIZE, 0, x.size(), 0),
            Told::Types => say_type(y.text, x.type_of(), page),
        }
    }

    // The left side; of a pair before the operator both parts.
    fn say_left(&self, page: &mut Page) {
        let y = self.symbols;
        let side = left_of(&y, self.s);
        if y.kind_before(side.from) == codes::MAPLET {
            let first = left_of(&y, side.from.saturating_sub(1));
            self.say_side(first, words::THE_LEFT_SIDE, page);
        }
        self.say_side(side, words::THE_LEFT_SIDE, page);
    }

    fn say_right(&self, page: &mut Page) {
        let side = right_of(&self.symbols, self.s);
        if !is_range(&self.symbols, side) {
            self.say_side(side, words::THE_RIGHT_SIDE, page);
        }
    }
}

// Both sides of the operator at symbol s, with their sizes or their types.
pub fn say_sides(y: &Symbols<'_>, s: usize, told: Told, page: &mut Page) {
    if y.kind(s) == codes::OPEN_BRACE {
        page.say(words::A_BRACE_OF_SEVERAL_TYPES);
        return;
    }
    let sides = Sides {
        symbols: *y,
        s,
        told,
    };
    if !y.is_prefix(s) {
        sides.say_left(page);
    }
    sides.say_right(page);
}
