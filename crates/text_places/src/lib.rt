// Where a byte of a text stands: its line and column, where that line begins, where the symbol ends that begins there.
#![tactic(auto)]

ghost use Rattle.std.specs.Prelude.{◌≡◌, ◌+◌, ◌≤◌, take, drop, ◌==◌, ◌||◌};
ghost use Rattle.text_places.specs.PlacePromises.{newlines, LineStart};

use lexical::classes::{at_or, run_from};
use lexical::marks::mark_of;
use lexical::words::ending_of;
use lexical::{Ending, Token};

// The bytes that part symbols.
pub const SPACE: u8 = b' ';

pub const NEWLINE: u8 = b'\n';

// The number of the first line, and of the first column.
const FIRST: usize = 1;

// Does a byte part symbols?
pub fn is_blank(b: u8) -> bool
    ensures { result ≡ (b == 32 || b == 10) }
{
    b == SPACE || b == NEWLINE
}

// The bytes of a text, or its symbols, from `from` up to `to`.
// Form 4: no `Range<usize>`, which is not Copy: `Trial` and `say_right` of refusal_sides and `trimmed` of conjunct_texts use a span again that they have handed on.
#[derive(Clone, Copy)]
pub struct Span {
    pub from: usize,
    pub to: usize,
}

// The bytes of a text before a place.
pub fn before(text: &[u8], p: usize) -> &[u8]
    ensures { result.now ≡ take p text.now }
{
    &text[..p.min(text.len())]
}

// The bytes of a text in a span.
pub fn part(text: &[u8], s: Span) -> &[u8]
    ensures { result.now ≡ drop s.from (take s.to text.now) }
{
    let front = before(text, s.to);
    &front[s.from.min(front.len())..]
}

// The number of the line that a byte stands in.
pub fn line_of(text: &[u8], p: usize) -> usize
    ensures { result ≡ 1 + newlines (take p text.now) }
{
    FIRST + before(text, p).iter().filter(|b| **b == NEWLINE).count()
}

// Where that line begins.
pub fn line_start(text: &[u8], p: usize) -> usize
    ensures { LineStart text.now p result }
{
    before(text, p)
        .iter()
        .rposition(|b| *b == NEWLINE)
        .map_or(0, |k| k + 1)
}

// The column of a byte.
pub fn column_of(text: &[u8], p: usize) -> usize {
    (p - line_start(text, p)).saturating_add(FIRST)
}

// How many bytes the mark has that three bytes begin with; a byte that begins none is shown alone.
fn mark_length(a: u8, b: u8, e: u8) -> usize {
    match mark_of(a, b, e) {
        Token::Listed(_, n, _) => n,
        Token::Gap | Token::Unlisted => 1,
    }
}

// Behind the last byte of the symbol that begins at a byte.
pub fn symbol_end(text: &[u8], p: usize) -> usize
    ensures { p ≤ result }
{
    let n = run_from(text, p);
    if n == 0 {
        return p.saturating_add(mark_length(
            at_or(text, p, 0),
            at_or(text, p.saturating_add(1), 0),
            at_or(text, p.saturating_add(2), 0),
        ));
    }
    let end = p.saturating_add(n);
    if ending_of(at_or(text, end, 0)) == Ending::Plain {
        return end;
    }
    end.saturating_add(1)
}

// The bytes of the symbol that begins at a byte.
pub fn symbol_at(text: &[u8], p: usize) -> Span
    ensures begins { result.from ≡ p }
    ensures ends { p ≤ result.to }
{
    Span {
        from: p,
        to: symbol_end(text, p),
    }
}

// Behind the last letter or digit of the run that begins at a byte.
pub fn run_end(text: &[u8], p: usize) -> usize {
    p.saturating_add(run_from(text, p))
}
