// The inputs with which a machine can step, as bits.
ghost use Rattle.std.specs.Prelude.{◌<◌};
ghost use Rattle.memo.specs.MemoPromises.{Memo};
ghost use Rattle.step_facts.specs.Machines.{is_abstract};
ghost use Rattle.step_facts.specs.FactPromises.{AbleIs, states_of, BitsAre, MasksAre};

use lexical::bounds::STATE_BINDINGS;
use step_searches::{StepSearch, next_abstract_step, next_concrete_step};

// The most bindings that a state has.
pub const MOST_STATES: usize = STATE_BINDINGS as usize;

// One of the two machines.
// Form 1: two cases of their own, no Option or Result.
// Form 7: `able` and `first_difference` match it, once each, and four functions hand it on: with a closure in its place each of the four would ask that the
// closure can be called, and promise over what it answers in place of `is_abstract machine`.
#[derive(Clone, Copy)]
pub enum Machine {
    Abstract,
    Concrete,
}

// Can a machine step from its state x with the inputs i?
pub fn able(
    s: &StepSearch<'_>,
    machine: Machine,
    x: usize,
    i: usize,
    memo: &mut [u64; memo::NUMBERS],
) -> bool
    requires s_bound { (x < states_of s.now.part (is_abstract machine)) × (i < s.now.part.inputs.bindings) }
    requires memo { Memo s.now.table.now memo.old }
    ensures found { AbleIs s.now.table.now s.now.plan.now s.now.cells.now s.now.part (is_abstract machine) x i result }
    ensures remembers { Memo s.now.table.now memo.new }
{
    let _ = &s.search;
    match machine {
        Machine::Abstract => next_abstract_step(s, x, i, 0, memo).is_some(),
        Machine::Concrete => next_concrete_step(s, x, i, 0, memo).is_some(),
    }
}

// The inputs with which it can, as bits; the last one's first, so that each one doubles what is there.
// Form 2: not by `points::masks::mask_of`, as `nest_steps::ready`: the test writes the memory, and `remembers` says what that is then.
pub fn bits(s: &StepSearch<'_>, machine: Machine, x: usize, memo: &mut [u64; memo::NUMBERS]) -> u64
    requires s_bound { x < states_of s.now.part (is_abstract machine) }
    requires memo { Memo s.now.table.now memo.old }
    ensures found { BitsAre s.now.table.now s.now.plan.now s.now.cells.now s.now.part (is_abstract machine) x result }
    ensures remembers { Memo s.now.table.now memo.new }
{
    let p = s.search.part;
    let mut m: u64 = 0;
    for i in (0..p.inputs.bindings).rev() {
        m = 2 * m + u64::from(able(s, machine, x, i, memo));
    }
    m
}

// Those of all concrete states.
// Form 3: after an adapter of `iter_mut` (`enumerate`, `zip`) nothing is known of what was written. Masks that are returned in place of those that are lent would be filled by the same loop, in an
// array of the function's own.
pub fn fill_masks(
    s: &StepSearch<'_>,
    masks: &mut [u64; MOST_STATES],
    memo: &mut [u64; memo::NUMBERS],
)
    requires memo { Memo s.now.table.now memo.old }
    ensures fills { MasksAre s.now.table.now s.now.plan.now s.now.cells.now s.now.part s.now.part.concretes.bindings masks.new }
    ensures remembers { Memo s.now.table.now memo.new }
{
    let p = s.search.part;
    for c in 0..p.concretes.bindings {
        let m = bits(s, Machine::Concrete, c, memo);
        masks[c] = m;
    }
}
