// Facts about an operation of a dossier, by numbers of bindings, from the searches for single states and steps: for a program that explains counterexamples. A number that is out of range is
// answered, never refused.
// `let _ = &s.search;` stands where a function names no field of its search: with it the proof learns the invariant of `StepSearch`.
// Form 2: four functions make operation j's part ready and search it: each has the arrays that the search refers to, so that a function that makes both cannot hand the search out;
// and a function that is handed a closure over the search would ask that it can be called with every search of the operation, in place of three statements.
// Form 3: in the loops by `while` the next place is what a search answers that writes the memory: in the closure of an iterator nothing is told of what it changes, as seen at
// `runs::step_from`, and `remembers` says what the memory is behind the loop.
// Form 5: the memory goes with the search through eleven functions: in one struct, lent to be written, each would have to promise that the search is the same
// behind it, and would hand the two on one by one, since the functions of `step_searches` take them so. That a number is one of the abstract bindings is asked of
// four functions, that it is one of the inputs' bindings of two: as in `step_searches`. That a mask has room for n bits (`n ≤ 64`) is asked of two of `differences`: as at
// `points::masks::mask_of`.
#![tactic(auto)]

ghost use Rattle.std.specs.Prelude.{ℕ, ◌≤◌};
ghost use Rattle.step_facts.specs.FactPromises.{SpansAre, AbstractStepIs};

pub use differences::{Place, narrowed, widened};
pub use runs::{Beginning, BothStep, begin, step};
pub use state_facts::Pair;
use step_searches::{
    PartArrays, ReadDossier, StepSearch, next_abstract_step, prepare, prepare_opening,
};
pub use totals::{abstract_states, promises, related_pairs};

mod bits;
mod differences;
mod runs;
mod totals;

// How many bindings the groups of an operation have: abstract states, concrete states, inputs, outputs.
#[derive(Clone, Copy)]
pub struct Widths {
    pub na: usize,
    pub nc: usize,
    pub ni: usize,
    pub nq: usize,
}

// How many bindings the groups of both states have, and one for inputs and outputs.
pub fn state_spans(d: &ReadDossier<'_>) -> Widths
    ensures { (j : ℕ) → d.now.operations ≤ j → SpansAre d.now.table.now d.now.rows.now d.now.firsts.now d.now.groups.now d.now.operations j result }
{
    let mut made = PartArrays::blank();
    let ready = prepare_opening(&d.arrays, &mut made);
    Widths {
        na: ready.meeting.bindings,
        nc: ready.concretes.bindings,
        ni: 1,
        nq: 1,
    }
}

// How many bindings the groups of operation j have; where it is none of the dossier's, those of both states, and one for inputs and outputs.
pub fn spans(d: &ReadDossier<'_>, j: usize) -> Widths
    ensures { SpansAre d.now.table.now d.now.rows.now d.now.firsts.now d.now.groups.now d.now.operations j result }
{
    if j < d.arrays.operations {
        let mut made = PartArrays::blank();
        let ready = prepare(&d.arrays, j, &mut made);
        return Widths {
            na: ready.abstracts.bindings,
            nc: ready.concretes.bindings,
            ni: ready.inputs.bindings,
            nq: ready.outputs.bindings,
        };
    }
    state_spans(d)
}

// Why no step is looked for: the numbers that it is asked for with are none of the operation's.
// Form 1: the error of a `Result`.
#[derive(Clone, Copy)]
pub enum StepFault {
    Beyond,
}

// The next step of the abstract operation j from the state a with the inputs i: outputs and after state as one number, o * na + a', if there is one.
pub fn abstract_step(
    d: &ReadDossier<'_>,
    j: usize,
    a: usize,
    i: usize,
    from: usize,
) -> Result<Option<usize>, StepFault>
    ensures { AbstractStepIs d.now.table.now d.now.rows.now d.now.firsts.now d.now.groups.now d.now.operations j a i from result }
{
    if d.arrays.operations <= j {
        return Err(StepFault::Beyond);
    }
    let mut made = PartArrays::blank();
    let ready = prepare(&d.arrays, j, &mut made);
    if ready.abstracts.bindings <= a
        || ready.inputs.bindings <= i
        || ready.readying.bindings < from
    {
        return Err(StepFault::Beyond);
    }
    let s = StepSearch {
        search: made.search(d.arrays.table, ready),
    };
    let mut memo = [0u64; memo::NUMBERS];
    let step = next_abstract_step(&s, a, i, from, &mut memo);
    Ok(step)
}
