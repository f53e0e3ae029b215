// The symbols of a text, one after the other.
ghost use Rattle.std.specs.Prelude.{◌≡◌, ◌≤◌, ◌<◌, length, drop};
ghost use Rattle.lexical.specs.Symbols.{symbol_at};
ghost use Rattle.lexical.specs.SymbolPromises.{token_of, Takes};

use lexical::bounds::SYMBOLS;
use lexical::classes::class_of;
use lexical::marks::mark_at;
use lexical::numbers::number_at;
use lexical::words::word_at;
use lexical::{Class, Token};
use refusals::{Fault, Refusal};

// What stands at `at`.
pub(crate) fn token_at(s: &[u8], at: usize) -> Token
    requires { at < length s.now }
    ensures { result ≡ token_of (symbol_at (drop at s.now)) }
{
    let c = class_of(s[at]);
    match c {
        Class::Letter => word_at(s, at),
        Class::Digit => number_at(s, at),
        Class::Mark => mark_at(s, at),
        Class::Blank => Token::Gap,
        Class::Other => Token::Unlisted,
    }
}

// The codes, the places and the values of the symbols of `s`; a name's value is left at 0.
// Form 6: codes, places and values are three arrays of fixed length, which the caller of `read` lends (document 01).
// Form 3: how far the next symbol is, says the one that is read, and the promise speaks of the rest of the text at a place; an iterator of symbols would
// promise that of itself at each step.
pub(crate) fn scan_symbols(
    s: &[u8],
    codes: &mut [u8; SYMBOLS],
    starts: &mut [u16; SYMBOLS],
    values: &mut [u16; SYMBOLS],
) -> Result<usize, Fault>
    requires { length s.now ≤ 32768 }
    ensures { Takes s.now codes.old starts.old values.old codes.new starts.new values.new result }
{
    let mut at = 0;
    let mut n = 0;
    while at < s.len() {
        let t = token_at(s, at);
        match t {
            Token::Gap => at += 1,
            Token::Unlisted => {
                return Err(Fault {
                    place: at,
                    refusal: Refusal::UnlistedSymbol,
                });
            }
            Token::Listed(code, len, value) => {
                if SYMBOLS <= n {
                    return Err(Fault {
                        place: at,
                        refusal: Refusal::ManySymbols,
                    });
                }
                codes[n] = code;
                starts[n] = at as u16;
                values[n] = value;
                n += 1;
                at += len;
            }
        }
    }
    Ok(n)
}
