// Numbers 6, 7 and 8: which count is passed, which entry of the contents a heading should be, where a name is declared first.
use crate::reaches::is_declared;
use lexical::bounds::SYMBOLS;
use lexical::codes;
use phrases::words;
use symbol_spans::{Symbols, is_name};
use text_places::{Span, before};

// Number 6: the phrase of the count that the name at symbol s passes.
pub fn passed(y: &Symbols<'_>, s: usize) -> usize {
    match y.kind(s) {
        codes::INPUT => words::TOO_MANY_INPUTS,
        codes::OUTPUT => words::TOO_MANY_OUTPUTS,
        _ => passed_behind(y.kind_before(s)),
    }
}

fn passed_behind(kind: u8) -> usize {
    match kind {
        codes::GIVEN => words::TOO_MANY_GIVEN_SETS,
        codes::OP => words::TOO_MANY_OPERATIONS,
        _ if is_name(kind) => words::TOO_MANY_ELEMENTS,
        _ => words::TOO_MANY_VARIABLES,
    }
}

// Does a heading begin with a symbol of this kind?
fn begins(kind: u8) -> bool {
    matches!(kind, codes::GIVEN..=codes::OP)
}

fn has_name(kind: u8) -> bool {
    kind == codes::GIVEN || kind == codes::OP
}

// The symbol that begins the n-th entry of the contents.
fn entry(y: &Symbols<'_>, n: usize) -> Option<usize> {
    (0..SYMBOLS)
        .take_while(|&s| y.kind(s) != codes::END)
        .filter(|&s| begins(y.kind(s)))
        .nth(n)
}

// Number 7: the entry of the contents that the heading at symbol s should be, by the number of bodies before it.
pub fn wanted(y: &Symbols<'_>, s: usize) -> Option<Span> {
    let e = entry(y, y.count_before(codes::END, s).saturating_sub(1))?;
    let many = if has_name(y.kind(e)) { 2 } else { 1 };
    Some(y.bytes(Span {
        from: e,
        to: e.saturating_add(many),
    }))
}

// Where the names begin that the name at symbol s must differ from: inputs and outputs differ within their operation, the others in the bodies.
// Form 1: where no `op` stands before it the names are those of the whole text, and where no `end` stands there are none: both are places that the walk begins at; with an Option it
// would have to say at its one call what each `None` stands for.
fn names_from(y: &Symbols<'_>, s: usize) -> usize {
    let kinds = y.kinds;
    match y.kind(s) {
        codes::INPUT | codes::OUTPUT => before(kinds, s)
            .iter()
            .rposition(|k| *k == codes::OP)
            .unwrap_or(0),
        _ => kinds
            .iter()
            .position(|k| *k == codes::END)
            .unwrap_or(SYMBOLS),
    }
}

fn declares(y: &Symbols<'_>, k: usize) -> bool {
    y.kind_before(k) == codes::OP || is_declared(y, k)
}

// Number 8: the first symbol in the bodies that declares the name at symbol s, before it.
pub fn first_declared(y: &Symbols<'_>, s: usize) -> Option<usize> {
    (names_from(y, s)..s).find(|&k| y.is_same(k, s) && declares(y, k))
}
