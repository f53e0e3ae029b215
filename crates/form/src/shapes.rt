// The shapes of nodes (specs/Codes.antt), each by what its node stands for.
// Form 1: numbers of nodes in arrays that the caller lends, where an enum would not stand (DECISIONS L9); `match` takes them by name.
// An entry `given NAME` of the contents, and an entry `op NAME`; a given set's heading, and an element; a state's heading; a declared name;
// a predicate; an operation's heading.
pub const GIVEN_ENTRY: u16 = 1;

pub const OPERATION_ENTRY: u16 = 2;

pub const GIVEN: u16 = 3;

pub const ELEMENT: u16 = 4;

pub const STATE: u16 = 5;

pub const DECLARED: u16 = 6;

pub const PREDICATE: u16 = 7;

pub const OPERATION: u16 = 8;

// Types; the first two are also what a name is bound over.
pub const SET: u16 = 1;

pub const RANGE: u16 = 2;

pub const POWER: u16 = 3;

pub const RELATION: u16 = 4;

pub const PARTIAL: u16 = 5;

pub const TOTAL: u16 = 6;

// Terms.
pub const NUMBER: u16 = 1;

pub const NAME: u16 = 2;

pub const PREFIX: u16 = 3;

pub const DIVIDED: u16 = 4;

pub const BINARY: u16 = 5;

pub const SUCH: u16 = 6;

pub const LISTED: u16 = 7;

pub const PAIRS: u16 = 8;

pub const EMPTY_SET: u16 = 9;

pub const EMPTY_PAIRS: u16 = 10;

// The last item or pair of a brace; another one, and those behind it.
pub const LAST: u16 = 1;

pub const ALSO: u16 = 2;

// Predicates.
pub const TRUTH: u16 = 1;

pub const NEGATION: u16 = 2;

pub const CONNECTED: u16 = 3;

pub const COMPARED: u16 = 4;

pub const MEMBER: u16 = 5;

pub const WITHIN: u16 = 6;

pub const RELATED: u16 = 7;

pub const QUANTIFIED: u16 = 8;

// The second number of a division: a negative divisor, a remainder, and both.
pub const NEGATIVE: u16 = 1;

pub const REMAINDER: u16 = 2;

pub const NEGATIVE_REMAINDER: u16 = 3;
