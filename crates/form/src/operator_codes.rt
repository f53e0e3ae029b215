// The codes of operators' symbols (`lexical::codes`) as a node has them, numbers of 16 bits: operators of terms, comparisons, connectives, quantifiers, `in`, and `true`.
// Form 1: numbers of nodes in arrays that the caller lends, where an enum would not stand (DECISIONS L9); an arm of a `match` takes a constant and no conversion.
use lexical::codes;

pub const PLUS: u16 = codes::PLUS as u16;

pub const DASH: u16 = codes::DASH as u16;

pub const TIMES: u16 = codes::TIMES as u16;

pub const SIZE: u16 = codes::SIZE as u16;

pub const DOM: u16 = codes::DOM as u16;

pub const RAN: u16 = codes::RAN as u16;

pub const UNION: u16 = codes::UNION as u16;

pub const MINUS: u16 = codes::MINUS as u16;

pub const EQUALS: u16 = codes::EQUALS as u16;

pub const DIFFERS: u16 = codes::DIFFERS as u16;

pub const LESS: u16 = codes::LESS as u16;

pub const AND: u16 = codes::AND as u16;

pub const OR: u16 = codes::OR as u16;

pub const IMPLIES: u16 = codes::IMPLIES as u16;

pub const FORALL: u16 = codes::FORALL as u16;

pub const EXISTS: u16 = codes::EXISTS as u16;

pub const IN: u16 = codes::IN as u16;

pub const TRUE: u16 = codes::TRUE as u16;
