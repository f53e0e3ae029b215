// The number of each kind of symbol: `code_of` of specs/Kinds.antt.
// Form 1: the codes of a text stand in an array of bytes of fixed length that the caller of `read` lends; an enum would narrow what he may lend.
ghost use Rattle.std.specs.Prelude.{◌≡◌};
ghost use Rattle.lexical.specs.SymbolPromises.{is_name};

pub const NUMBER: u8 = 1;

pub const PLAIN: u8 = 2;

pub const PRIMED: u8 = 3;

pub const INPUT: u8 = 4;

pub const OUTPUT: u8 = 5;

pub const COLON: u8 = 10;

pub const SEMICOLON: u8 = 11;

pub const COMMA: u8 = 12;

pub const BAR: u8 = 13;

pub const SPOT: u8 = 14;

pub const OPEN_PAREN: u8 = 15;

pub const CLOSE_PAREN: u8 = 16;

pub const OPEN_BRACKET: u8 = 17;

pub const CLOSE_BRACKET: u8 = 18;

pub const OPEN_BRACE: u8 = 19;

pub const CLOSE_BRACE: u8 = 20;

pub const UP_TO: u8 = 21;

pub const EQUALS: u8 = 22;

pub const DIFFERS: u8 = 23;

pub const LESS: u8 = 24;

pub const AT_MOST: u8 = 25;

pub const IMPLIES: u8 = 26;

pub const IFF: u8 = 27;

pub const PLUS: u8 = 28;

pub const DASH: u8 = 29;

pub const TIMES: u8 = 30;

pub const SIZE: u8 = 31;

pub const MAPLET: u8 = 32;

pub const RELATION: u8 = 33;

pub const PARTIAL: u8 = 34;

pub const TOTAL: u8 = 35;

pub const CONTENTS: u8 = 36;

pub const GIVEN: u8 = 37;

pub const ABSTRACT: u8 = 38;

pub const CONCRETE: u8 = 39;

pub const AINIT: u8 = 40;

pub const CINIT: u8 = 41;

pub const RETRIEVE: u8 = 42;

pub const OP: u8 = 43;

pub const END: u8 = 44;

pub const WHERE: u8 = 45;

pub const POWER: u8 = 46;

pub const EMPTY: u8 = 47;

pub const TRUE: u8 = 48;

pub const FALSE: u8 = 49;

pub const NOT: u8 = 50;

pub const AND: u8 = 51;

pub const OR: u8 = 52;

pub const FORALL: u8 = 53;

pub const EXISTS: u8 = 54;

pub const EXISTS1: u8 = 55;

pub const IN: u8 = 56;

pub const NOTIN: u8 = 57;

pub const UNION: u8 = 58;

pub const MINUS: u8 = 59;

pub const INTER: u8 = 60;

pub const DIV: u8 = 61;

pub const MOD: u8 = 62;

pub const DOM: u8 = 63;

pub const RAN: u8 = 64;

// Is it the code of a name, with or without an ending?
pub fn is_name(code: u8) -> bool
    ensures { result ≡ is_name code }
{
    matches!(code, PLAIN..=OUTPUT)
}
