// Which of the spans' numbers is which (specs/Spans.antt).
// Form 1: places in the lent array of spans and how many there are, no kinds.
ghost use Rattle.std.specs.Prelude.{◌≡◌, ◌+◌, ◌*◌, ◌≤◌, ◌<◌};
ghost use Rattle.node_spans.specs.StateSpans.{state_first};

use lexical::bounds;

// Of each state where its variables begin and end, and where its predicate ends.
pub const ABSTRACT_FIRST: usize = 0;

pub const ABSTRACT_LAST: usize = 1;

pub const ABSTRACT_END: usize = 2;

pub const CONCRETE_FIRST: usize = 3;

pub const CONCRETE_LAST: usize = 4;

pub const CONCRETE_END: usize = 5;

// The same of a state by how far they stand behind its first number.
pub const STATE_LAST: usize = 1;

pub const STATE_END: usize = 2;

// The two states of a dossier.
// Form 1: two cases of its own, no Option or Result.
#[derive(Clone, Copy)]
pub enum State {
    Abstract,
    Concrete,
}

impl State {
    // Where the numbers of the state begin.
    pub fn first(self) -> usize
        ensures { (result ≡ state_first self) × (result ≤ 3) }
    {
        match self {
            State::Abstract => ABSTRACT_FIRST,
            State::Concrete => CONCRETE_FIRST,
        }
    }
}

// Where the three conditions end.
pub const AINIT_END: usize = 6;

pub const CINIT_END: usize = 7;

pub const RETRIEVE_END: usize = 8;

// Where those of the operations begin, how many each one has, and which: where its parameters begin, where they end, where its two predicates end.
pub const OPERATIONS: usize = 9;

pub const OPERATION: usize = 4;

pub const LAST: usize = 1;

pub const MIDDLE: usize = 2;

pub const END: usize = 3;

// Where the numbers of the operation k begin.
pub fn of_operation(k: usize) -> usize
    requires { k < 65536 }
    ensures { result ≡ 9 + 4 * k }
{
    OPERATIONS + OPERATION * k
}

// How many numbers there are at most, and how many operations.
pub const COUNT: usize = 80;

pub const MOST: usize = bounds::OPERATIONS as usize;

// How many operations the numbers would have room for, the last one's not all.
pub const ROOM: usize = (COUNT - OPERATIONS) / OPERATION + 1;
