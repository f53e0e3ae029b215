// Form 1: places of contexts among `firsts`, no kinds (DECISIONS L9); those of operations go on from the last.
// The contexts: both states, initial states, retrieve, then two for each operation, its abstract and its concrete predicate.
pub const ABSTRACT_STATE: usize = 0;

pub const CONCRETE_STATE: usize = 1;

pub const AINIT: usize = 2;

pub const CINIT: usize = 3;

pub const RETRIEVE: usize = 4;

pub const OPERATIONS: usize = 5;

pub const SIDES: usize = 2;

pub const CONCRETE_SIDE: usize = 1;
