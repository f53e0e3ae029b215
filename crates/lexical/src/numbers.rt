// Runs that start with a digit: numbers.
ghost use Rattle.std.specs.Prelude.{◌≡◌, ◌≤◌, ◌<◌, length, drop, get_or};
ghost use Rattle.lexical.specs.Symbols.{class_of, by_class, digit};
ghost use Rattle.lexical.specs.SymbolPromises.{token_of, more_of, decimal_after};

use crate::bounds::LARGEST_NUMBER;
use crate::classes::run_from;
use crate::{Token, codes};

// The number that one more digit makes of v; none where b is no digit or the number is over 1,000.
pub fn more(v: u16, b: u8) -> Option<u16>
    requires { v ≤ 1000 }
    ensures { result ≡ more_of v b }
{
    if !b.is_ascii_digit() {
        return None;
    }
    let m = v * 10 + u16::from(b - b'0');
    (m <= LARGEST_NUMBER).then_some(m)
}

// The number that these bytes write; none where they are not digits or it is over 1,000.
// Form 4: `u16::from_str_radix` takes a `&str`, and a + in front, which writes no number here: what the bytes are would be tested before it, and 1,000 behind it.
pub fn decimal(digits: &[u8]) -> Option<u16>
    ensures { result ≡ decimal_after 0 digits.now }
{
    let mut v = 0;
    for b in digits {
        v = more(v, *b)?;
    }
    Some(v)
}

// The number from `at` on, which has no leading zero.
pub fn number_at(s: &[u8], at: usize) -> Token
    requires { (at < length s.now) × (class_of (get_or s.now at 0) ≡ digit) }
    ensures { result ≡ token_of (by_class digit (drop at s.now)) }
{
    let n = run_from(s, at);
    if n != 1 && s[at] == b'0' {
        return Token::Unlisted;
    }
    match decimal(&s[at..at + n]) {
        Some(v) => Token::Listed(codes::NUMBER, n, v),
        None => Token::Unlisted,
    }
}
