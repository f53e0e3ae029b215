// Where values are found: the first slot of each group of variables, plain and primed, of the parameters and of the bound names.
// Form 1: places that are counted on from, in the lent table, and no kinds (DECISIONS L9).
pub const ABSTRACT: u16 = 0;

pub const CONCRETE: u16 = 8;

pub const INPUTS: u16 = 16;

pub const OUTPUTS: u16 = 19;

pub const CONCRETE_PRIMED: u16 = 22;

pub const ABSTRACT_PRIMED: u16 = 30;

pub const BOUND: u16 = 38;

// The last slot; from the number behind it on stand the places of elements in their given sets.
pub const LAST: u16 = 63;

pub const ELEMENTS: u16 = 64;
