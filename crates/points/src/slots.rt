// The first slot of each group of variables, and how many slots they have in all: those of the evaluator's table, as places in the arrays of slots.
// Form 1: places, no kinds.
use table_nodes::slots;

pub const ABSTRACT: usize = slots::ABSTRACT as usize;

pub const CONCRETE: usize = slots::CONCRETE as usize;

pub const INPUTS: usize = slots::INPUTS as usize;

pub const OUTPUTS: usize = slots::OUTPUTS as usize;

pub const CONCRETE_PRIMED: usize = slots::CONCRETE_PRIMED as usize;

pub const ABSTRACT_PRIMED: usize = slots::ABSTRACT_PRIMED as usize;

pub const COUNT: usize = slots::BOUND as usize;

// The two arrays of slots: the state before and the primed variables; the state after under the plain slots.
pub const BEFORE: usize = 0;

pub const AFTER: usize = 1;
