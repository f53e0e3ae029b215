// Symbols of a text, and stretches of them by their kinds: the operands of an operator, the atom that it stands in. They say where to try another text, not what a text means.
#![tactic(auto)]

ghost use Rattle.std.specs.Prelude.{◌≡◌, ◌==◌, ◌-◌, ◌≤◌, ◌<◌, ◌⊎◌, count_by, take, replicate, slice_index, Some};
ghost use Rattle.symbol_spans.specs.declared.Bracket.TheVariants.{Open, Close};

use lexical::bounds::SYMBOLS;
use lexical::classes::at_or;
use lexical::codes;
use text_places::{Span, before, symbol_end};

// Is a symbol of this kind a name?
pub use lexical::codes::is_name;

// How tight a symbol binds: what no atom goes past, comparisons, sums, products, what stands inside an operand.
// Form 1: five levels that are compared, no Option or Result.
#[derive(Clone, Copy, PartialEq, Eq, PartialOrd, Ord)]
pub enum Tightness {
    Loose,
    Comparison,
    Sum,
    Product,
    Inside,
}

// The two sides of a pair of brackets.
// Form 1: two cases that walks go into and out of, no Option or Result; a symbol that is no bracket is `None` of it.
#[derive(Clone, Copy, PartialEq, Eq)]
pub enum Bracket {
    Open,
    Close,
}

// A text and its symbols, as they are scanned: their kinds, 0 past the last one, where they start, and their values.
// Form 6: three arrays side by side, as `symbols::scan` and `parse` fill the arrays that they are lent (document 01).
#[derive(Clone, Copy)]
pub struct Symbols<'a> {
    pub text: &'a [u8],
    pub kinds: &'a [u8],
    pub starts: &'a [u16],
    pub values: &'a [u16],
}

// The arrays that the symbols of a text are scanned into.
#[derive(Drop)]
pub struct SymbolArrays {
    pub kinds: [u8; SYMBOLS],
    pub starts: [u16; SYMBOLS],
    pub values: [u16; SYMBOLS],
}

impl SymbolArrays {
    pub fn new() -> Self
        ensures kinds { result.kinds ≡ replicate 4096 0 }
        ensures starts { result.starts ≡ replicate 4096 0 }
        ensures values { result.values ≡ replicate 4096 0 }
    {
        SymbolArrays {
            kinds: [0; SYMBOLS],
            starts: [0; SYMBOLS],
            values: [0; SYMBOLS],
        }
    }

    // The symbols of the text that was scanned.
    pub fn symbols<'a>(&'a self, text: &'a [u8]) -> Symbols<'a>
        ensures text { result.text.now ≡ text.now }
        ensures kinds { result.kinds.now ≡ self.now.kinds }
        ensures starts { result.starts.now ≡ self.now.starts }
        ensures values { result.values.now ≡ self.now.values }
    {
        Symbols {
            text,
            kinds: &self.kinds,
            starts: &self.starts,
            values: &self.values,
        }
    }
}

// How tight a kind binds.
pub fn tightness_of(kind: u8) -> Tightness {
    match kind {
        codes::EQUALS..=codes::AT_MOST | codes::MAPLET | codes::IN | codes::NOTIN => {
            Tightness::Comparison
        }
        codes::PLUS | codes::DASH | codes::UNION | codes::MINUS => Tightness::Sum,
        codes::TIMES | codes::INTER | codes::DIV | codes::MOD => Tightness::Product,
        codes::NUMBER..=codes::OUTPUT
        | codes::OPEN_BRACKET..=codes::UP_TO
        | codes::SIZE
        | codes::EMPTY
        | codes::DOM
        | codes::RAN => Tightness::Inside,
        _ => Tightness::Loose,
    }
}

// The bracket that a kind is.
pub fn bracket_of(kind: u8) -> Option<Bracket>
    ensures opens { (kind ≡ 15) ⊎ ((kind ≡ 17) ⊎ (kind ≡ 19)) → result ≡ Some Open }
    ensures closes { (kind ≡ 16) ⊎ ((kind ≡ 18) ⊎ (kind ≡ 20)) → result ≡ Some Close }
{
    match kind {
        codes::OPEN_PAREN | codes::OPEN_BRACKET | codes::OPEN_BRACE => Some(Bracket::Open),
        codes::CLOSE_PAREN | codes::CLOSE_BRACKET | codes::CLOSE_BRACE => Some(Bracket::Close),
        _ => None,
    }
}

// Does an operand end with a symbol of this kind? A dash behind it is no prefix.
fn ends_operand(kind: u8) -> bool {
    matches!(kind, codes::NUMBER..=codes::OUTPUT) || bracket_of(kind) == Some(Bracket::Close)
}

// A number of each symbol, 0 past the last one.
// Form 1: some that ask for a start or a value have seen the symbol's kind, others go by places that a node, a walk, the refusal or the count of symbols gives: none of them asks whether the
// symbol is there, so that with an Option each would unwrap it with 0, which is what the definitions' look-up has there.
fn number_at(numbers: &[u16], s: usize) -> usize
    ensures value { result ≡ slice_index numbers.now s }
    ensures small { result < 65536 }
{
    usize::from(at_or(numbers, s, 0))
}

impl Symbols<'_> {
    // The kind of a symbol, 0 past the last one, as the scanner leaves it there.
    // Form 1: 0 is no kind's code: a test of a kind is false there, as for `None`; what asks for the end itself (`before_byte`, `ends` of refusal_hints) asks for 0.
    pub fn kind(&self, s: usize) -> u8
        ensures { result ≡ slice_index self.now.kinds.now s }
    {
        at_or(self.kinds, s, 0)
    }

    // The kind of the symbol before s, 0 before the first one. Form 1: as `kind` past the last one.
    pub fn kind_before(&self, s: usize) -> u8 {
        s.checked_sub(1).map_or(0, |k| self.kind(k))
    }

    // The first byte of a symbol, 0 past the last one.
    pub fn start(&self, s: usize) -> usize
        ensures value { result ≡ slice_index self.now.starts.now s }
        ensures small { result < 65536 }
    {
        number_at(self.starts, s)
    }

    // Behind its last byte.
    pub fn end(&self, s: usize) -> usize
        ensures { slice_index self.now.starts.now s ≤ result }
    {
        symbol_end(self.text, self.start(s))
    }

    // The bytes of some symbols, from the first one's start to the last one's end.
    pub fn bytes(&self, s: Span) -> Span
        ensures begins { result.from ≡ slice_index self.now.starts.now s.from }
        ensures ends { slice_index self.now.starts.now (s.to - 1) ≤ result.to }
    {
        Span {
            from: self.start(s.from),
            to: self.end(s.to.saturating_sub(1)),
        }
    }

    // Have two symbols the same letters?
    pub fn has_same_letters(&self, s: usize, k: usize) -> bool
        ensures { result ≡ (slice_index self.now.values.now s == slice_index self.now.values.now k) }
    {
        self.value(s) == self.value(k)
    }

    // And the same ending?
    pub fn is_same(&self, s: usize, k: usize) -> bool {
        self.kind(s) == self.kind(k) && self.has_same_letters(s, k)
    }

    // The value of a symbol.
    // Form 2: two methods, since a caller names which of the two arrays it asks; what they share is `number_at`.
    pub fn value(&self, s: usize) -> usize
        ensures value { result ≡ slice_index self.now.values.now s }
        ensures small { result < 65536 }
    {
        number_at(self.values, s)
    }

    // Is the symbol a prefix?
    pub fn is_prefix(&self, s: usize) -> bool {
        match self.kind(s) {
            codes::SIZE | codes::DOM | codes::RAN => true,
            codes::DASH => !ends_operand(self.kind_before(s)),
            _ => false,
        }
    }

    // How tight symbol s binds; a prefix belongs to its operand.
    pub fn tightness_at(&self, s: usize) -> Tightness {
        if self.is_prefix(s) {
            return Tightness::Inside;
        }
        tightness_of(self.kind(s))
    }

    // Does a walk end at symbol s that goes into brackets of one kind and out of those of the other? If not, `depth` is how many are open behind it.
    fn is_end(&self, s: usize, depth: &mut usize, least: Tightness, into: Bracket) -> bool {
        match bracket_of(self.kind(s)) {
            Some(b) if b == into => {
                *depth = depth.saturating_add(1);
                false
            }
            Some(_) if *depth == 0 => true,
            Some(_) => {
                *depth -= 1;
                false
            }
            None => *depth == 0 && self.tightness_at(s) < least,
        }
    }

    // The first symbol of what stands before s and binds at least as tight as `least`, brackets whole.
    pub fn left_from(&self, s: usize, least: Tightness) -> usize
        ensures { result ≤ s }
    {
        let mut depth: usize = 0;
        let many = (0..s)
            .rev()
            .take_while(|&k| !self.is_end(k, &mut depth, least, Bracket::Close))
            .count();
        s.saturating_sub(many)
    }

    // Behind the last symbol of what stands from s on and binds so tight.
    pub fn right_to(&self, s: usize, least: Tightness) -> usize
        ensures { s ≤ result }
    {
        let mut depth: usize = 0;
        let many = (s..SYMBOLS)
            .take_while(|&k| !self.is_end(k, &mut depth, least, Bracket::Open))
            .count();
        s.saturating_add(many)
    }

    // Does a term go on around what begins at s: a bracket, or a brace that lists?
    fn is_enclosed(&self, s: usize) -> bool {
        matches!(
            self.kind_before(s),
            codes::OPEN_BRACKET | codes::OPEN_BRACE | codes::COMMA
        )
    }

    // One step around it: what a brace lists is taken whole before the brace is left.
    fn around(&self, t: Span) -> Span {
        if t.from == 0 || SYMBOLS <= t.to {
            return t;
        }
        let right = self.kind(t.to) == codes::COMMA;
        let left = self.kind_before(t.from) == codes::COMMA;
        Span {
            from: if right {
                t.from
            } else {
                self.left_from(t.from - 1, Tightness::Comparison)
            },
            to: if left && !right {
                t.to
            } else {
                self.right_to(t.to + 1, Tightness::Comparison)
            },
        }
    }

    // The atom that symbol s stands in: out of brackets of terms, up to what no atom goes past.
    pub fn atom(&self, s: usize) -> Span {
        let mut t = Span {
            from: self.left_from(s, Tightness::Comparison),
            to: self.right_to(s, Tightness::Comparison),
        };
        for _ in 0..SYMBOLS {
            if !self.is_enclosed(t.from) {
                return t;
            }
            t = self.around(t);
        }
        t
    }

    // How many symbols stand before a byte.
    pub fn before_byte(&self, p: usize) -> usize
        ensures { result ≤ 4096 }
    {
        (0..SYMBOLS)
            .find(|&s| self.kind(s) == 0 || p <= self.start(s))
            .unwrap_or(SYMBOLS)
    }

    // How many symbols of a kind stand before symbol s.
    pub fn count_before(&self, kind: u8, s: usize) -> usize
        ensures { result ≡ count_by (λ k. k == kind) (take s self.now.kinds.now) }
    {
        let kinds = self.kinds;
        before(kinds, s).iter().filter(|k| **k == kind).count()
    }
}
