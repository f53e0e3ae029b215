// The steps of the nest: the inputs at which the abstract precondition holds, the next of them, and whether a binding passes; in modules the next candidate of each group, the conclusions
// that are known to be true, and the blocks that pass alike.
// Form 5: `NestLent` and `Memo` relate the slots and the memory, which are written, to the search, which is read. In a struct of all three with both as its invariant, each of the ten
// functions that ask them would promise instead that it leaves the search, and `nest::sweep`, which lends the slots twelve times and the memory ten times, would say in the invariants of its
// five loops that the search of the struct is still its own. A struct of slots and memory alone can have neither as its invariant: both name arrays of the search. The bound of a candidate,
// or of a binding of the inputs, is a size of the search's part: a type of numbers with that as its invariant would have to hold it beside each number. That a mask has room for n bits
// (`n ≤ 64`, of `next_bit`): as at `points::masks::mask_of`.
#![tactic(auto)]

ghost use Rattle.std.specs.Prelude.{◌<◌, ◌≤◌};
ghost use Rattle.sets.specs.Sets.{has};
ghost use Rattle.memo.specs.MemoPromises.{Memo};
ghost use Rattle.points.specs.Searches.{Sought};
ghost use Rattle.nest_steps.specs.NestPromises.{NestLent, AbstractPreAnswers, PreAnswers, ReadyAnswers, InputAsked, InputsBound, InputAnswers, MetAnswers};
ghost use Rattle.nest_steps.specs.Remembering.{Remembered, BindingAsked, AgainAnswers};

use crate::known::{KNOWN, Numbers, is_known, key_of, mark_of, remember};
use plans::PartSearch;
use points::plan::{MET, READY};
use points::slots::{BEFORE, INPUTS};
use seek::{Span, seek};
use slot_carriers::SLOTS;
use slot_carriers::groups::bind;

pub mod blocks;
pub mod candidates;
pub mod known;

// Does the abstract precondition hold at this abstract state and these inputs?
// Form 2: this and `passes` are each one call of `seek`, as the functions of `candidates`, with a promise of its own.
fn abstract_pre(
    s: &PartSearch<'_>,
    slots: &mut [[i64; SLOTS]; 2],
    memo: &mut [u64; memo::NUMBERS],
) -> bool
    requires nest_asked { NestLent s.now slots.old }
    requires memo { Memo s.now.table.now memo.old }
    ensures answers { AbstractPreAnswers s.now.table.now s.now.plan.now s.now.cells.now s.now.part slots.old slots.new result }
    ensures remembers { Memo s.now.table.now memo.new }
{
    let span = Span {
        u: READY,
        j: 0,
        size: s.part.readying,
        from: 0,
    };
    seek(s, span, slots, memo) < s.part.readying.bindings
}

// Does a binding pass whose premises hold?
// Form 2: as `abstract_pre`.
fn passes(
    s: &PartSearch<'_>,
    slots: &mut [[i64; SLOTS]; 2],
    memo: &mut [u64; memo::NUMBERS],
) -> bool
    requires nest_asked { NestLent s.now slots.old }
    requires memo { Memo s.now.table.now memo.old }
    ensures answers { MetAnswers s.now.table.now s.now.plan.now s.now.cells.now s.now.part slots.old slots.new result }
    ensures remembers { Memo s.now.table.now memo.new }
{
    let span = Span {
        u: MET,
        j: 0,
        size: s.part.meeting,
        from: 0,
    };
    seek(s, span, slots, memo) < s.part.meeting.bindings
}

// The same of the binding that the slots have; not searched for where it is known.
pub fn passes_again(
    s: &PartSearch<'_>,
    b: Numbers,
    slots: &mut [[i64; SLOTS]; 2],
    known: &mut [u16; KNOWN],
    memo: &mut [u64; memo::NUMBERS],
) -> bool
    requires binding_asked { BindingAsked s.now.table.now s.now.plan.now s.now.cells.now s.now.part b slots.old }
    requires remembered { Remembered s.now.table.now s.now.plan.now s.now.cells.now s.now.part known.old }
    requires memo { Memo s.now.table.now memo.old }
    ensures answers { AgainAnswers s.now.table.now s.now.plan.now s.now.cells.now s.now.part b slots.old slots.new known.new result }
    ensures remembers { Memo s.now.table.now memo.new }
{
    let key = key_of(&s.part, b);
    let mark = mark_of(&s.part, b);
    if is_known(known, key, mark) {
        return true;
    }
    if !passes(s, slots, memo) {
        return false;
    }
    remember(known, key, mark);
    true
}

// The inputs get the values of their i-th binding.
fn bind_inputs(s: &PartSearch<'_>, i: usize, slots: &mut [[i64; SLOTS]; 2])
    requires i_lt_ni { i < s.now.part.inputs.bindings }
    requires input_asked { InputAsked s.now.cells.now s.now.part slots.old }
    ensures { InputsBound s.now.cells.now s.now.part i slots.old slots.new }
{
    bind(s.cells, INPUTS, s.part.inputs, i, &mut slots[BEFORE]);
}

// The abstract precondition at the i-th inputs.
fn pre_at(
    s: &PartSearch<'_>,
    i: usize,
    slots: &mut [[i64; SLOTS]; 2],
    memo: &mut [u64; memo::NUMBERS],
) -> bool
    requires i_lt_ni { i < s.now.part.inputs.bindings }
    requires nest_asked { NestLent s.now slots.old }
    requires memo { Memo s.now.table.now memo.old }
    ensures answers { PreAnswers s.now.table.now s.now.plan.now s.now.cells.now s.now.part i slots.old slots.new result }
    ensures remembers { Memo s.now.table.now memo.new }
{
    bind_inputs(s, i, slots);
    abstract_pre(s, slots, memo)
}

// The inputs at which the abstract precondition holds at this abstract state, as bits; the last one's first, so that each one doubles what is there.
// Form 2: `points::masks::mask_of` makes such a mask by a test that changes nothing. This one binds the inputs and remembers, and what a closure has written is
// known to no law once the closure is gone: `answers` and `remembers` say what the slots and the memory are then.
pub fn ready(
    s: &PartSearch<'_>,
    slots: &mut [[i64; SLOTS]; 2],
    memo: &mut [u64; memo::NUMBERS],
) -> u64
    requires nest_asked { NestLent s.now slots.old }
    requires memo { Memo s.now.table.now memo.old }
    ensures answers { ReadyAnswers s.now.table.now s.now.plan.now s.now.cells.now s.now.part slots.old slots.new result }
    ensures remembers { Memo s.now.table.now memo.new }
{
    let mut mask: u64 = 0;
    for i in (0..s.part.inputs.bindings).rev() {
        mask = 2 * mask + u64::from(pre_at(s, i, slots, memo));
    }
    mask
}

// The next one of these inputs from `from` on.
// Form 1: as in `candidates`, the number behind the last where there is none.
fn next_bit(mask: u64, from: usize, n: usize) -> usize
    requires { (from ≤ n) × (n ≤ 64) }
    ensures { Sought (has mask) from n result }
{
    (from..n).find(|&i| (mask >> i) % 2 == 1).unwrap_or(n)
}

// The same, and the inputs have its values then.
// Form 1: as `next_bit`.
pub fn next_input(
    s: &PartSearch<'_>,
    mask: u64,
    from: usize,
    slots: &mut [[i64; SLOTS]; 2],
) -> usize
    requires from_le_ni { from ≤ s.now.part.inputs.bindings }
    requires input_asked { InputAsked s.now.cells.now s.now.part slots.old }
    ensures { InputAnswers s.now.cells.now s.now.part mask from slots.old slots.new result }
{
    let i = next_bit(mask, from, s.part.inputs.bindings);
    if i < s.part.inputs.bindings {
        bind_inputs(s, i, slots);
    }
    i
}
