// Form 1: places in a row, no kinds (DECISIONS L9). `NO_COLUMN` is the first column of a search of one group. With an Option `Some(0)` would be a first column
// for which the definition of a conjunct's level (`level_of` of plans), which stands, says none, so that the code's `level_of` would have to ask that there is
// no such.
// In the row of a conjunct: where its nodes end, and from the third number on the last variable of each group that it mentions.
pub const END: usize = 1;

pub const NO_COLUMN: usize = 0;

pub const ABSTRACT: usize = 2;

pub const CONCRETE: usize = 3;

pub const OUTPUTS: usize = 5;

pub const CONCRETE_PRIMED: usize = 6;

pub const ABSTRACT_PRIMED: usize = 7;
