// The layout of a plan: for each of the five searches 16 numbers, then the tests of all of them.
// Form 1: lengths and places in a plan, no kinds. The number of a search is the place of its 16 numbers, and a search for idle variables goes over all numbers from one on.
// Form 6: one array, as the table and the cells beside it in `plans::PartSearch`: how many tests a search has is known when its last one is written. Of the heads as structs two functions
// would read fields in place of places (`PartSearch::tests`, `seek::slot_of`) and two write them (`search` and `head` of `plans::Writer`): ten expressions in all; what a plan means is said
// through `mark_in` and `slot_in` alone.
pub const HEAD: usize = 16;

pub const TESTS: usize = 80;

// From the first of the 16 on, where the tests of the levels 0 to 11 begin and where the last ones end; then the first slot of a first group, how many variables it has, the first
// slot of a second group.
pub const LEVELS: usize = 12;

pub const FIRST_SLOT: usize = 13;

pub const FIRST_COUNT: usize = 14;

pub const SECOND_SLOT: usize = 15;

// The searches of a part: abstract states; concrete ones that are related; outputs and after states of the abstract operation; outputs and after states of the concrete one, which the
// part goes through; what must be there for a binding to pass.
pub const STATES: usize = 0;

pub const RELATED: usize = 1;

pub const READY: usize = 2;

pub const STEPS: usize = 3;

pub const MET: usize = 4;
