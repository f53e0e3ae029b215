// The limits of document 01, "Refusals that come from the input", 1 to 6 and 11 to 13, and "Symbols".
// Form 1: limits, no kinds.
// Bytes of a text, symbols of a text, letters of a name, and the largest number.
pub const TEXT_BYTES: usize = 32768;

// The longest text, and one byte more: a text that is longer is refused by these alone.
pub const TEXT_FRONT: usize = TEXT_BYTES + 1;

pub const SYMBOLS: usize = 4096;

pub const NAME_LETTERS: usize = 16;

pub const LARGEST_NUMBER: u16 = 1000;

// How deep terms and predicates stand in each other, and how many bound names are in reach.
pub const DEPTH: u8 = 24;

pub const BOUND_NAMES: u8 = 3;

// Given sets, elements in one, variables in a state, inputs and outputs of an operation, operations.
pub const GIVEN_SETS: u8 = 8;

pub const ELEMENTS: u8 = 8;

pub const VARIABLES: u8 = 8;

pub const INPUTS: u8 = 3;

pub const OUTPUTS: u8 = 3;

pub const OPERATIONS: u8 = 16;

// Number 11: how many numbers a range has at most, and how many pairs a type.
pub const RANGE_NUMBERS: u32 = 64;

pub const PAIRS: u32 = 16;

// Number 12: how many bindings the variables of a state have at most, and the inputs or the outputs of an operation.
pub const STATE_BINDINGS: u32 = 4096;

pub const PARAMETER_BINDINGS: u32 = 64;

// Number 13: the largest size, and the size of `#`.
pub const LARGEST_SIZE: u64 = 2147483647;

pub const COUNT_SIZE: u64 = 16;
