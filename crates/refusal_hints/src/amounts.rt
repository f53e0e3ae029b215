// Numbers 11 and 12: how many numbers a range has, how many pairs a type, how many bindings the variables of a state, or the inputs or outputs of an operation.
use lexical::bounds::{LARGEST_NUMBER, PARAMETER_BINDINGS, SYMBOLS};
use lexical::codes;
use symbol_spans::{Symbols, is_name};

// As many bindings are not told.
const MANY: usize = 1000000000;

// 0 among the numbers from the least one on.
const ZERO: usize = LARGEST_NUMBER as usize;

// x to the power n, where a number has room for it.
fn power(x: usize, n: usize) -> Option<usize> {
    x.checked_pow(u32::try_from(n).ok()?)
}

// The end of a range at symbol s, counted from the least number on, where a dash may stand before it.
fn end_at(y: &Symbols<'_>, s: usize) -> usize {
    let n = y.value(s);
    if y.kind_before(s) == codes::DASH {
        return ZERO.saturating_sub(n);
    }
    ZERO + n
}

// The number of a range's second end, where the range has its .. at symbol s.
fn second_end(y: &Symbols<'_>, s: usize) -> usize {
    let next = s.saturating_add(1);
    if y.kind(next) == codes::DASH {
        return next.saturating_add(1);
    }
    next
}

// How many numbers a range has, with its .. at symbol s; 0 where the first is the larger one.
// Form 1: 0 is how many numbers such a range has, and so `type_values` takes it; `None` is what it answers for too many.
pub fn range_numbers(y: &Symbols<'_>, s: usize) -> usize {
    let a = end_at(y, s.saturating_sub(1));
    let b = end_at(y, second_end(y, s));
    b.saturating_add(1).saturating_sub(a)
}

// How many names follow each other behind symbol k.
fn names_behind(y: &Symbols<'_>, k: usize) -> usize {
    (k.saturating_add(1)..SYMBOLS)
        .take_while(|&i| is_name(y.kind(i)))
        .count()
}

// Does the name of a given set stand at symbol k, the one that stands at symbol t?
fn is_title(y: &Symbols<'_>, k: usize, t: usize) -> bool {
    is_name(y.kind(k)) && y.kind_before(k) == codes::GIVEN && y.is_same(k, t)
}

// How many elements the given set has whose name stands at symbol t: its names in the body but one, and none in the contents. The body's names follow each other.
fn elements(y: &Symbols<'_>, t: usize) -> usize {
    (0..SYMBOLS)
        .filter(|&k| is_title(y, k, t))
        .fold(0, |many, k| many.saturating_add(names_behind(y, k)))
}

// How many pairs the type has of the given sets whose names stand at two symbols.
pub fn pairs(y: &Symbols<'_>, s: usize, t: usize) -> usize {
    elements(y, s).saturating_mul(elements(y, t))
}

// How many values the type has that begins with the name of a given set at symbol s, where a number has room for it.
fn set_values(y: &Symbols<'_>, s: usize) -> Option<usize> {
    let k = elements(y, s);
    let l = elements(y, s.saturating_add(2));
    match y.kind(s.saturating_add(1)) {
        codes::RELATION => power(2, k.saturating_mul(l)),
        codes::PARTIAL => power(l.saturating_add(1), k),
        codes::TOTAL => power(l, k),
        _ => Some(k),
    }
}

// How many values the type has that begins at symbol s, where a number has room for it.
fn type_values(y: &Symbols<'_>, s: usize) -> Option<usize> {
    match y.kind(s) {
        codes::POWER => power(2, elements(y, s.saturating_add(1))),
        codes::NUMBER => Some(range_numbers(y, s.saturating_add(1))),
        codes::DASH => Some(range_numbers(y, s.saturating_add(2))),
        _ => set_values(y, s),
    }
}

// Do the declarations end with a symbol of this kind?
fn ends(kind: u8) -> bool {
    matches!(kind, 0 | codes::ABSTRACT | codes::WHERE)
}

// Is a variable of a kind declared at symbol s?
fn is_variable(y: &Symbols<'_>, s: usize, kind: u8) -> bool {
    y.kind(s) == kind && y.kind(s.saturating_add(1)) == codes::COLON
}

// How many bindings the variables of a kind have that are declared behind the heading at symbol s; none where they are too many to be told.
pub fn bindings(y: &Symbols<'_>, s: usize, kind: u8) -> Option<usize> {
    (s.saturating_add(1)..SYMBOLS)
        .take_while(|&k| !ends(y.kind(k)))
        .filter(|&k| is_variable(y, k, kind))
        .try_fold(1usize, |r, k| {
            type_values(y, k.saturating_add(2)).and_then(|n| r.checked_mul(n))
        })
        .filter(|n| *n < MANY)
}

// How many bindings the inputs have of the operation at symbol s, or the outputs where those are not too many.
pub fn parameter_bindings(y: &Symbols<'_>, s: usize) -> Option<usize> {
    let inputs = bindings(y, s, codes::INPUT);
    if inputs.is_some_and(|n| n <= PARAMETER_BINDINGS as usize) {
        return bindings(y, s, codes::OUTPUT);
    }
    inputs
}
