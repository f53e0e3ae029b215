// The shapes of the table's nodes (table_places/specs/ResolvedTable.antt), each by what its node stands for.
// Form 1: numbers of the table that the caller lends, where an enum would not stand (DECISIONS L9); `match` takes them by name.
// Terms: a number, an element or an empty set by its value; a variable or a bound name by its slot; the others by their form.
pub const VALUE: u16 = 1;

pub const SLOT: u16 = 2;

pub const PREFIX: u16 = 3;

pub const DIVIDED: u16 = 4;

pub const BINARY: u16 = 5;

pub const SUCH: u16 = 6;

pub const LISTED: u16 = 7;

pub const PAIRS: u16 = 8;

// The last item of a brace; another one, and those behind it; the same of pairs.
pub const LAST_ITEM: u16 = 9;

pub const ALSO_ITEM: u16 = 10;

pub const LAST_PAIR: u16 = 11;

pub const ALSO_PAIR: u16 = 12;

// What a name is bound over; a range after `in`.
pub const OVER: u16 = 13;

// Predicates.
pub const TRUTH: u16 = 16;

pub const NEGATION: u16 = 17;

pub const CONNECTED: u16 = 18;

pub const COMPARED: u16 = 19;

pub const MEMBER: u16 = 20;

pub const WITHIN: u16 = 21;

pub const RELATED: u16 = 22;

pub const UNRELATED: u16 = 23;

pub const QUANTIFIED: u16 = 24;
