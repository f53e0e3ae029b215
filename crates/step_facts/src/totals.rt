// How many states, related pairs and promised steps there are.
ghost use Rattle.std.specs.Prelude.{◌<◌};
ghost use Rattle.memo.specs.MemoPromises.{Memo};
ghost use Rattle.step_facts.specs.FactPromises.{Summed, one, state_test, related_test, ready_test, adds, AddedIs, TotalIs};
ghost use Rattle.step_facts.specs.FactPromises.{StatesCounted, PairsCounted, PromisesCounted};

use crate::bits::{Machine, able};
use step_searches::{
    PartArrays, ReadDossier, StepSearch, next_abstract_state, next_related_state, prepare,
};

// The operation that is asked for what all of them have in common.
const FIRST: usize = 0;

// What is counted: abstract states; pairs of related states, so that an abstract state adds how many concrete states are related to it; pairs of an abstract state and inputs with which
// the abstract side can step.
// Form 1: kinds of a count, no result.
// Form 7: `count_at` matches it, once, and two functions hand it on: a closure in its place is lent the memory, and each of the two would ask of it, for every memory that is sound, what
// `count_at` promises in two clauses.
#[derive(Clone, Copy)]
pub enum Counted {
    States,
    Pairs,
    Promises,
}

// How many concrete states are related to the abstract state a.
fn count_related(s: &StepSearch<'_>, a: usize, memo: &mut [u64; memo::NUMBERS]) -> usize
    requires a_lt_na { a < s.now.part.abstracts.bindings }
    requires memo { Memo s.now.table.now memo.old }
    ensures found { Summed s.now.table.now s.now.plan.now s.now.cells.now s.now.part (related_test a) one s.now.part.concretes.bindings result }
    ensures remembers { Memo s.now.table.now memo.new }
{
    let _ = &s.search;
    let mut n = 0;
    let mut next = next_related_state(s, a, 0, memo);
    while let Some(c) = next {
        n += 1;
        next = next_related_state(s, a, c + 1, memo);
    }
    n
}

// With how many inputs the abstract side can step from a.
// Form 3: `able` writes the memory: in the closure of a `filter` before `count` nothing is told of what it changes, and `remembers` says what the memory is behind the loop.
fn count_ready(s: &StepSearch<'_>, a: usize, memo: &mut [u64; memo::NUMBERS]) -> usize
    requires a_lt_na { a < s.now.part.abstracts.bindings }
    requires memo { Memo s.now.table.now memo.old }
    ensures found { Summed s.now.table.now s.now.plan.now s.now.cells.now s.now.part (ready_test a) one s.now.part.inputs.bindings result }
    ensures remembers { Memo s.now.table.now memo.new }
{
    let p = s.search.part;
    let mut n = 0;
    for i in 0..p.inputs.bindings {
        n += usize::from(able(s, Machine::Abstract, a, i, memo));
    }
    n
}

// How much the abstract state a adds to a count.
fn count_at(
    s: &StepSearch<'_>,
    counted: Counted,
    a: usize,
    memo: &mut [u64; memo::NUMBERS],
) -> usize
    requires a_lt_na { a < s.now.part.abstracts.bindings }
    requires memo { Memo s.now.table.now memo.old }
    ensures found { AddedIs s.now.table.now s.now.plan.now s.now.cells.now s.now.part counted a result }
    ensures remembers { Memo s.now.table.now memo.new }
{
    let _ = &s.search;
    match counted {
        Counted::States => 1,
        Counted::Pairs => count_related(s, a, memo),
        Counted::Promises => count_ready(s, a, memo),
    }
}

// What all abstract states come to.
fn count_all(s: &StepSearch<'_>, counted: Counted, memo: &mut [u64; memo::NUMBERS]) -> usize
    requires memo { Memo s.now.table.now memo.old }
    ensures found { Summed s.now.table.now s.now.plan.now s.now.cells.now s.now.part state_test (adds counted s.now.part.concretes.bindings s.now.part.inputs.bindings) s.now.part.abstracts.bindings result }
    ensures remembers { Memo s.now.table.now memo.new }
{
    let _ = &s.search;
    let mut n = 0;
    let mut next = next_abstract_state(s, 0, memo);
    while let Some(a) = next {
        n += count_at(s, counted, a, memo);
        next = next_abstract_state(s, a + 1, memo);
    }
    n
}

// What they come to for operation j of the arrays; nothing is counted where the dossier has no such operation.
// Form 1: so many there are then: 0 is a count.
fn total(d: &ReadDossier<'_>, j: usize, counted: Counted) -> usize
    ensures { TotalIs d.now.table.now d.now.rows.now d.now.firsts.now d.now.groups.now d.now.operations j counted result }
{
    if d.arrays.operations <= j {
        return 0;
    }
    let mut made = PartArrays::blank();
    let ready = prepare(&d.arrays, j, &mut made);
    let s = StepSearch {
        search: made.search(d.arrays.table, ready),
    };
    let mut memo = [0u64; memo::NUMBERS];
    count_all(&s, counted, &mut memo)
}

// The number of abstract states, of a dossier that has an operation.
pub fn abstract_states(d: &ReadDossier<'_>) -> usize
    ensures { StatesCounted d.now.table.now d.now.rows.now d.now.firsts.now d.now.groups.now d.now.operations result }
{
    total(d, FIRST, Counted::States)
}

// The number of pairs of related states, of a dossier that has an operation.
pub fn related_pairs(d: &ReadDossier<'_>) -> usize
    ensures { PairsCounted d.now.table.now d.now.rows.now d.now.firsts.now d.now.groups.now d.now.operations result }
{
    total(d, FIRST, Counted::Pairs)
}

// The number of pairs of an abstract state and inputs with which operation j can step.
pub fn promises(d: &ReadDossier<'_>, j: usize) -> usize
    ensures { PromisesCounted d.now.table.now d.now.rows.now d.now.firsts.now d.now.groups.now d.now.operations j result }
{
    total(d, j, Counted::Promises)
}
