// Marks: the longest that some bytes begin with.
ghost use Rattle.std.specs.Prelude.{◌≡◌, [], ◌∷◌, ◌<◌, length, drop};
ghost use Rattle.lexical.specs.Kinds.{marks};
ghost use Rattle.lexical.specs.Symbols.{longest};
ghost use Rattle.lexical.specs.SymbolPromises.{token_of};

use crate::classes::at_or;
use crate::{Token, codes};

// The longest mark that three bytes begin with.
pub fn mark_of(a: u8, b: u8, e: u8) -> Token
    ensures { result ≡ token_of (longest marks (a ∷ b ∷ e ∷ [])) }
{
    match (a, b, e) {
        (b':', _, _) => Token::Listed(codes::COLON, 1, 0),
        (b';', _, _) => Token::Listed(codes::SEMICOLON, 1, 0),
        (b',', _, _) => Token::Listed(codes::COMMA, 1, 0),
        (b'|', b'-', b'>') => Token::Listed(codes::MAPLET, 3, 0),
        (b'|', _, _) => Token::Listed(codes::BAR, 1, 0),
        (b'@', _, _) => Token::Listed(codes::SPOT, 1, 0),
        (b'(', _, _) => Token::Listed(codes::OPEN_PAREN, 1, 0),
        (b')', _, _) => Token::Listed(codes::CLOSE_PAREN, 1, 0),
        (b'[', _, _) => Token::Listed(codes::OPEN_BRACKET, 1, 0),
        (b']', _, _) => Token::Listed(codes::CLOSE_BRACKET, 1, 0),
        (b'{', _, _) => Token::Listed(codes::OPEN_BRACE, 1, 0),
        (b'}', _, _) => Token::Listed(codes::CLOSE_BRACE, 1, 0),
        (b'.', b'.', _) => Token::Listed(codes::UP_TO, 2, 0),
        (b'=', b'>', _) => Token::Listed(codes::IMPLIES, 2, 0),
        (b'=', _, _) => Token::Listed(codes::EQUALS, 1, 0),
        (b'/', b'=', _) => Token::Listed(codes::DIFFERS, 2, 0),
        (b'<', b'=', b'>') => Token::Listed(codes::IFF, 3, 0),
        (b'<', b'=', _) => Token::Listed(codes::AT_MOST, 2, 0),
        (b'<', b'-', b'>') => Token::Listed(codes::RELATION, 3, 0),
        (b'<', _, _) => Token::Listed(codes::LESS, 1, 0),
        (b'+', _, _) => Token::Listed(codes::PLUS, 1, 0),
        (b'-', b'+', b'>') => Token::Listed(codes::PARTIAL, 3, 0),
        (b'-', b'-', b'>') => Token::Listed(codes::TOTAL, 3, 0),
        (b'-', _, _) => Token::Listed(codes::DASH, 1, 0),
        (b'*', _, _) => Token::Listed(codes::TIMES, 1, 0),
        (b'#', _, _) => Token::Listed(codes::SIZE, 1, 0),
        _ => Token::Unlisted,
    }
}

// The longest mark from `at` on.
// Form 5: the walk over a text has tested that a byte stands at the place; what reads a symbol there asks for it. A slice from the place on would be asked to have a byte
// by the same three functions, so that no clause would go.
pub fn mark_at(s: &[u8], at: usize) -> Token
    requires { at < length s.now }
    ensures { result ≡ token_of (longest marks (drop at s.now)) }
{
    mark_of(s[at], at_or(s, at + 1, 0), at_or(s, at + 2, 0))
}
