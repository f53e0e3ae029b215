// The text of a conjunct: the bytes between the first and the last symbol of its nodes, with the brackets that belong to them. What is found has no promise: it is shown beside facts that are
// proved of the conjunct's table.
#![tactic(auto)]

ghost use Rattle.std.specs.Iterator.{IsFinite};

use form::node;
use form::node::NUMBERS;
use lexical::bounds::SYMBOLS;
use lexical::codes;
use parser::parse;
use symbol_spans::{Bracket, SymbolArrays, Symbols, bracket_of};
use text_places::{Span, is_blank, part};

// The first and the last symbol of some nodes.
#[derive(Clone, Copy)]
struct Ends {
    first: usize,
    last: usize,
}

// Brackets that are wanting: closed among some symbols and opened before, opened among them and closed behind.
#[derive(Clone, Copy)]
struct Wanting {
    before: usize,
    behind: usize,
}

// The ends of the symbols of some nodes, none where they have no symbol.
// Form 1: nodes are lent as numbers; place 0, where the contents begin, is that of nodes that join others and have no symbol.
fn ends_of(nodes: &[u16]) -> Option<Ends> {
    let symbols = || {
        nodes
            .chunks_exact(node::SIZE)
            .filter_map(|n| n.get(node::PLACE).copied())
            .filter(|s| *s != 0)
    };
    Some(Ends {
        first: usize::from(symbols().min()?),
        last: usize::from(symbols().max()?),
    })
}

// Does a conjunct go on with such a symbol behind its last node: the number behind div, mod or .., the sets behind `empty`?
fn goes_on(kind: u8) -> bool {
    matches!(
        kind,
        codes::NUMBER | codes::PLAIN | codes::DASH | codes::UP_TO
    )
}

// On over the symbols that have no node.
fn whole(y: &Symbols<'_>, s: usize) -> usize {
    let more = (s..SYMBOLS)
        .take_while(|&k| goes_on(y.kind(k.saturating_add(1))))
        .count();
    s.saturating_add(more)
}

// The brackets that are wanting.
fn brackets_wanting(y: &Symbols<'_>, e: Ends) -> Wanting {
    let mut w = Wanting {
        before: 0,
        behind: 0,
    };
    for k in e.first..=e.last {
        match bracket_of(y.kind(k)) {
            Some(Bracket::Open) => w.behind = w.behind.saturating_add(1),
            Some(Bracket::Close) => match w.behind.checked_sub(1) {
                Some(n) => w.behind = n,
                None => w.before = w.before.saturating_add(1),
            },
            None => (),
        }
    }
    w
}

// The n-th bracket of a side among some symbols, the first of which counts for none.
fn bracket_among<I: Iterator<Item = usize> + Drop>(
    y: &Symbols<'_>,
    symbols: I,
    first: usize,
    side: Bracket,
    n: usize,
) -> Option<usize>
    requires can { I.can_next symbols }
    requires ends { IsFinite (I.remaining symbols) }
{
    symbols
        .filter(|&s| s == first || bracket_of(y.kind(s)) == Some(side))
        .nth(n)
}

// Back to the n-th bracket that opens.
// Form 1: where there is none, the text's first symbol, and in `closed` what is behind the last: what there is of the conjunct is shown then; with an Option nothing of it would be.
fn opened(y: &Symbols<'_>, first: usize, n: usize) -> usize {
    bracket_among(y, (0..=first).rev(), first, Bracket::Open, n).unwrap_or(0)
}

// On to the n-th bracket that closes.
// Form 1: as `opened`.
fn closed(y: &Symbols<'_>, last: usize, n: usize) -> usize {
    bracket_among(y, last..SYMBOLS, last, Bracket::Close, n).unwrap_or(last.max(SYMBOLS))
}

// The bytes of a span without the blanks at its end.
fn trimmed(text: &[u8], s: Span) -> Span {
    let end = part(text, s)
        .iter()
        .rposition(|b| !is_blank(*b))
        .map_or(s.from, |k| s.from.saturating_add(k).saturating_add(1));
    Span {
        from: s.from,
        to: end,
    }
}

// Where the symbol behind s begins, of so many; the text's end where there is none.
fn end_of(y: &Symbols<'_>, s: usize, many: usize) -> usize {
    if s < SYMBOLS && s + 1 < many {
        return y.start(s + 1);
    }
    let text = y.text;
    text.len()
}

// The bytes of the conjunct of some nodes, in a text of so many symbols.
fn bytes_of_nodes(y: &Symbols<'_>, many: usize, nodes: &[u16]) -> Option<Span> {
    let nearest = ends_of(nodes)?;
    let ends = Ends {
        first: nearest.first,
        last: whole(y, nearest.last),
    };
    let w = brackets_wanting(y, ends);
    let from = y.start(opened(y, ends.first, w.before));
    let to = end_of(y, closed(y, ends.last, w.behind), many);
    Some(trimmed(y.text, Span { from, to }))
}

// The bytes of the conjunct whose nodes stand between two places; none for a text that is refused, and where there are no such nodes.
pub fn bytes_of(text: &[u8], from: usize, end: usize) -> Option<Span> {
    let mut a = SymbolArrays::new();
    let mut nodes = [0u16; NUMBERS];
    let structure = parse(text, &mut a.kinds, &mut a.starts, &mut a.values, &mut nodes).ok()?;
    bytes_of_nodes(&a.symbols(text), structure.symbols, nodes.get(from..end)?)
}
