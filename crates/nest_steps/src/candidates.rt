// The next candidate of each group that a search goes through.
// Form 1: where there is none the answer is the number behind the last, as of `seek`: a loop goes on while the answer is below it, and what holds at all numbers before the answer holds
// behind the last one too, with no case of its own.
// Form 2: each is one call of `seek`; they stay four functions, since each promises what its own search finds, and one function over the
// number of the search would promise that by cases.
ghost use Rattle.std.specs.Prelude.{◌≤◌};
ghost use Rattle.memo.specs.MemoPromises.{Memo};
ghost use Rattle.nest_steps.specs.NestPromises.{NestLent, AbstractAnswers, ConcreteAnswers, OutputAnswers, AfterAnswers};

use plans::PartSearch;
use points::plan::{RELATED, STATES, STEPS};
use seek::{Span, seek};
use slot_carriers::SLOTS;

// The next abstract state from a on.
pub(crate) fn next_abstract(
    s: &PartSearch<'_>,
    a: usize,
    slots: &mut [[i64; SLOTS]; 2],
    memo: &mut [u64; memo::NUMBERS],
) -> usize
    requires a_le_na { a ≤ s.now.part.abstracts.bindings }
    requires nest_asked { NestLent s.now slots.old }
    requires memo { Memo s.now.table.now memo.old }
    ensures answers { AbstractAnswers s.now.table.now s.now.plan.now s.now.cells.now s.now.part a slots.old slots.new result }
    ensures remembers { Memo s.now.table.now memo.new }
{
    let span = Span {
        u: STATES,
        j: 0,
        size: s.part.abstracts,
        from: a,
    };
    seek(s, span, slots, memo)
}

// The next concrete state from c on that is related to the abstract one.
pub(crate) fn next_concrete(
    s: &PartSearch<'_>,
    c: usize,
    slots: &mut [[i64; SLOTS]; 2],
    memo: &mut [u64; memo::NUMBERS],
) -> usize
    requires c_le_nc { c ≤ s.now.part.concretes.bindings }
    requires nest_asked { NestLent s.now slots.old }
    requires memo { Memo s.now.table.now memo.old }
    ensures answers { ConcreteAnswers s.now.table.now s.now.plan.now s.now.cells.now s.now.part c slots.old slots.new result }
    ensures remembers { Memo s.now.table.now memo.new }
{
    let span = Span {
        u: RELATED,
        j: 0,
        size: s.part.concretes,
        from: c,
    };
    seek(s, span, slots, memo)
}

// The next outputs from o on that no conjunct without a primed variable excludes.
pub fn next_output(
    s: &PartSearch<'_>,
    o: usize,
    slots: &mut [[i64; SLOTS]; 2],
    memo: &mut [u64; memo::NUMBERS],
) -> usize
    requires o_le_nq { o ≤ s.now.part.outputs.bindings }
    requires nest_asked { NestLent s.now slots.old }
    requires memo { Memo s.now.table.now memo.old }
    ensures answers { OutputAnswers s.now.table.now s.now.plan.now s.now.cells.now s.now.part o slots.old slots.new result }
    ensures remembers { Memo s.now.table.now memo.new }
{
    let span = Span {
        u: STEPS,
        j: 0,
        size: s.part.outputs,
        from: o,
    };
    seek(s, span, slots, memo)
}

// The next concrete after state from k on that the concrete operation allows with these outputs.
pub fn next_after(
    s: &PartSearch<'_>,
    k: usize,
    slots: &mut [[i64; SLOTS]; 2],
    memo: &mut [u64; memo::NUMBERS],
) -> usize
    requires k_le_nk { k ≤ s.now.part.primes.bindings }
    requires nest_asked { NestLent s.now slots.old }
    requires memo { Memo s.now.table.now memo.old }
    ensures answers { AfterAnswers s.now.table.now s.now.plan.now s.now.cells.now s.now.part k slots.old slots.new result }
    ensures remembers { Memo s.now.table.now memo.new }
{
    let span = Span {
        u: STEPS,
        j: s.part.outputs.variables,
        size: s.part.primes,
        from: k,
    };
    seek(s, span, slots, memo)
}
