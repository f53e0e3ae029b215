// A beginning of both machines, and a step of both.
ghost use Rattle.std.specs.Prelude.{◌<◌};
ghost use Rattle.memo.specs.MemoPromises.{Memo};
ghost use Rattle.step_facts.specs.FactPromises.{BeginIs, PairLow, StepFound, StepIs};

use crate::bits::{Machine, able};
use state_facts::Pair;
use step_searches::{
    PartArrays, ReadDossier, StepSearch, Stepped, next_concrete_step, next_initial_match,
    next_initial_state, next_matching_state, prepare, prepare_opening,
};

// Where a run begins: in a concrete initial state and an abstract one that is related to it; in a concrete initial state that no abstract one is related to; nowhere.
// Form 1: three cases with other contents each: as an Option of a concrete state with an Option of an abstract one, the one caller would put together the pair that `Both` has.
#[derive(Clone, Copy)]
pub enum Beginning {
    Both(Pair),
    Concrete(usize),
    Nowhere,
}

// A step of both sides: inputs, outputs, the concrete state after it, the abstract state after it.
#[derive(Clone, Copy)]
pub struct BothStep {
    pub i: usize,
    pub o: usize,
    pub k: usize,
    pub b: usize,
}

// The first concrete initial state, and the first abstract initial state that is related to it.
pub fn begin(d: &ReadDossier<'_>) -> Beginning
    ensures { BeginIs d.now.table.now d.now.rows.now d.now.firsts.now d.now.groups.now d.now.operations result }
{
    let mut made = PartArrays::blank();
    let ready = prepare_opening(&d.arrays, &mut made);
    let s = made.search(d.arrays.table, ready);
    let mut memo = [0u64; memo::NUMBERS];
    let Some(c) = next_initial_state(&s, 0, &mut memo) else {
        return Beginning::Nowhere;
    };
    match next_initial_match(&s, c, 0, &mut memo) {
        Some(a) => Beginning::Both(Pair { a, c }),
        None => Beginning::Concrete(c),
    }
}

// A step of both sides from two states with the inputs i: the first concrete one, and an abstract state after it that matches.
fn step_at(
    s: &StepSearch<'_>,
    x: Pair,
    i: usize,
    memo: &mut [u64; memo::NUMBERS],
) -> Option<BothStep>
    requires x_bound { PairLow s.now.part x × (i < s.now.part.inputs.bindings) }
    requires memo { Memo s.now.table.now memo.old }
    ensures found { StepFound s.now.table.now s.now.plan.now s.now.cells.now s.now.part x.a x.c result }
    ensures remembers { Memo s.now.table.now memo.new }
{
    let p = s.search.part;
    if !able(s, Machine::Abstract, x.a, i, memo) {
        return None;
    }
    let step = next_concrete_step(s, x.c, i, 0, memo)?;
    let o = step / p.concretes.bindings;
    let k = step % p.concretes.bindings;
    let b = next_matching_state(s, Stepped { a: x.a, i, o, k }, 0, memo)?;
    Some(BothStep { i, o, k, b })
}

// One with any inputs.
// Form 3: tried: `find_map` over a closure that is lent the memory: that the memory is sound at each of its turns, and behind the last, did not close, since nothing is told of what it changes.
fn step_from(s: &StepSearch<'_>, x: Pair, memo: &mut [u64; memo::NUMBERS]) -> Option<BothStep>
    requires x_bound { PairLow s.now.part x }
    requires memo { Memo s.now.table.now memo.old }
    ensures found { StepFound s.now.table.now s.now.plan.now s.now.cells.now s.now.part x.a x.c result }
    ensures remembers { Memo s.now.table.now memo.new }
{
    let p = s.search.part;
    for i in 0..p.inputs.bindings {
        let step = step_at(s, x, i, memo);
        if step.is_some() {
            return step;
        }
    }
    None
}

// A step of both sides of operation j from two states.
pub fn step(d: &ReadDossier<'_>, j: usize, x: Pair) -> Option<BothStep>
    ensures { StepIs d.now.table.now d.now.rows.now d.now.firsts.now d.now.groups.now d.now.operations j x.a x.c result }
{
    if d.arrays.operations <= j {
        return None;
    }
    let mut made = PartArrays::blank();
    let ready = prepare(&d.arrays, j, &mut made);
    if ready.abstracts.bindings <= x.a || ready.concretes.bindings <= x.c {
        return None;
    }
    let s = StepSearch {
        search: made.search(d.arrays.table, ready),
    };
    let mut memo = [0u64; memo::NUMBERS];
    step_from(&s, x, &mut memo)
}
