// Runs that start with a letter: names and reserved words.
ghost use Rattle.std.specs.Prelude.{◌≡◌, List, [], ◌∷◌, ℕ, ◌≤◌, length, drop};
ghost use Rattle.std.proofs.Math.Option.{Option};
ghost use Rattle.lexical.specs.Kinds.{Kind, words};
ghost use Rattle.lexical.specs.Symbols.{ending_of, run, reserved, word_of, by_class, letter};
ghost use Rattle.lexical.specs.SymbolPromises.{token_of, packed, keyed, word_code, ending_is};

use crate::bounds::NAME_LETTERS;
use crate::classes::{at_or, run_from};
use crate::{Ending, Token, codes};

// How many bytes the longest reserved word has.
const LONGEST_WORD: usize = 8;

// The reserved word whose bytes are packed in `key`, the first one lowest.
// Form 1: keys, and no words. The bar is that `read` gets no slower; with a table of words and codes that `iter().find(..)` searches by `==`, which is proved as
// well, the scan of the six texts of tests/speed takes 1.21 to 1.38 of the time (plain Rust at opt-level 3, best of 200: comparisons 100 to 133 microseconds). Of
// a `match` on byte strings the kit makes 245 goals, 109 of them for `_`: each knows some bytes, and has to refute 29 words by them.
pub fn word_code(key: u64) -> Option<u8>
    ensures { result ≡ keyed words key }
{
    match key {
        0x73746e65746e6f63 => Some(codes::CONTENTS), // contents
        0x6e65766967 => Some(codes::GIVEN), // given
        0x7463617274736261 => Some(codes::ABSTRACT), // abstract
        0x65746572636e6f63 => Some(codes::CONCRETE), // concrete
        0x74696e6961 => Some(codes::AINIT), // ainit
        0x74696e6963 => Some(codes::CINIT), // cinit
        0x6576656972746572 => Some(codes::RETRIEVE), // retrieve
        0x706f => Some(codes::OP), // op
        0x646e65 => Some(codes::END), // end
        0x6572656877 => Some(codes::WHERE), // where
        0x50 => Some(codes::POWER), // P
        0x7974706d65 => Some(codes::EMPTY), // empty
        0x65757274 => Some(codes::TRUE), // true
        0x646e61 => Some(codes::AND), // and
        0x726f => Some(codes::OR), // or
        0x746f6e => Some(codes::NOT), // not
        0x65736c6166 => Some(codes::FALSE), // false
        0x6c6c61726f66 => Some(codes::FORALL), // forall
        0x737473697865 => Some(codes::EXISTS), // exists
        0x31737473697865 => Some(codes::EXISTS1), // exists1
        0x6e69 => Some(codes::IN), // in
        0x6e69746f6e => Some(codes::NOTIN), // notin
        0x6e6f696e75 => Some(codes::UNION), // union
        0x73756e696d => Some(codes::MINUS), // minus
        0x7265746e69 => Some(codes::INTER), // inter
        0x766964 => Some(codes::DIV), // div
        0x646f6d => Some(codes::MOD), // mod
        0x6d6f64 => Some(codes::DOM), // dom
        0x6e6172 => Some(codes::RAN), // ran
        _ => None,
    }
}

// The bytes of a run packed as one number, the first one lowest: there is room for sixteen. Most names have one letter, which is its own number.
// Form 4: with `u128::from_le_bytes` of sixteen bytes that the run is copied into, the scan of the same texts takes 0.96 (long names) to 1.26 (quantifiers) of the
// time.
pub fn packed(run: &[u8]) -> u128
    ensures { result ≡ packed 16 run.now }
{
    if let [b] = run {
        return u128::from(*b);
    }
    let n = run.len().min(NAME_LETTERS);
    let mut key = 0;
    for b in run[..n].iter().rev() {
        key = 256 * key + u128::from(*b);
    }
    key
}

// What ends a name.
pub fn ending_of(b: u8) -> Ending
    ensures { ending_is result ≡ ending_of (b ∷ []) }
{
    match b {
        b'\'' => Ending::Prime,
        b'?' => Ending::Query,
        b'!' => Ending::Shriek,
        _ => Ending::Plain,
    }
}

// The reserved word that the run of n bytes from `at` on is: none is longer than eight bytes.
// Form 5: that a place is inside is asked here, by `word_at` and by one function of `name_numbers`. A value of text and place with that as its invariant would be
// made at each of their calls, where the two are held apart, and shown there as the clause is now.
pub fn reserved_at(s: &[u8], at: usize, n: usize) -> Option<u8>
    requires { (at ≤ length s.now) × (n ≡ length (run (drop at s.now))) }
    ensures { result ≡ word_code (reserved words (run (drop at s.now))) }
{
    if LONGEST_WORD < n {
        return None;
    }
    word_code(packed(&s[at..at + n]) as u64)
}

// The name of n letters with that ending, or the reserved word, which takes no ending.
pub fn word_of(n: usize, ending: Ending, word: Option<u8>) -> Token
    ensures { (r : List ℕ) (o : Option Kind) → n ≡ length r → word ≡ word_code o → result ≡ token_of (word_of r (ending_is ending) o) }
{
    if let Some(code) = word {
        return match ending {
            Ending::Plain => Token::Listed(code, n, 0),
            Ending::Prime | Ending::Query | Ending::Shriek => Token::Unlisted,
        };
    }
    if NAME_LETTERS < n {
        return Token::Unlisted;
    }
    match ending {
        Ending::Plain => Token::Listed(codes::PLAIN, n, 0),
        Ending::Prime => Token::Listed(codes::PRIMED, n + 1, 0),
        Ending::Query => Token::Listed(codes::INPUT, n + 1, 0),
        Ending::Shriek => Token::Listed(codes::OUTPUT, n + 1, 0),
    }
}

// The name or reserved word from `at` on.
pub fn word_at(s: &[u8], at: usize) -> Token
    requires { at ≤ length s.now }
    ensures { result ≡ token_of (by_class letter (drop at s.now)) }
{
    let n = run_from(s, at);
    let ending = ending_of(at_or(s, at + n, 0));
    let word = reserved_at(s, at, n);
    word_of(n, ending, word)
}
