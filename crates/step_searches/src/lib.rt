// States and steps of a dossier's two machines, one after the other, by the numbers of their bindings: the searches of an operation's correctness part and of the initialisation part,
// with the variables that are given at one of their bindings and all others at their first values.
// Form 5: the memory goes with the search through eight functions: it is written where the search is read, and in one struct, lent to be written, each of the eight
// would promise that the search is the same behind it. What is asked of an initialisation part is asked of two functions: a struct around `PartSearch` with its
// `Model` is twelve lines for two clauses. That a number is one of the abstract bindings is asked of two functions here and of four in `step_facts`; that it is one of the concrete bindings,
// of three here, of three in `state_facts` and of one in `reached_pairs`; that it is one of the inputs' bindings, of two here, of two in `step_facts` and of one in `reached_pairs`. Each bound is
// a size of the search's part: a type of such numbers would hold the size, or the search, beside the number, and each of these functions would ask instead that it is that of the
// search that is lent beside it.
#![tactic(auto)]

ghost use Rattle.std.specs.Prelude.{◌*◌, ◌<◌, ◌≤◌, IfSome, unwrap_or};
ghost use Rattle.memo.specs.MemoPromises.{Memo};
ghost use Rattle.part_setup.specs.SetupPromises.{Blank};
ghost use Rattle.step_searches.specs.StepPromises.{PutAsked, PutAnswers, PrepareAsked, Prepared, OpenAsked, Opened, OpeningAsked, Below};
ghost use Rattle.step_searches.specs.StepPromises.{GivenAsked, GivenAnswers};
ghost use Rattle.step_searches.specs.StepPromises.{AbstractStateFound, RelatedStateFound, AbstractStepFound, ConcreteStepFound, MatchFound};
ghost use Rattle.step_searches.specs.StepPromises.{InitialStateFound, InitialMatchFound, ConcreteAsked, StateAnswers, ConcreteStateFound};

use part_setup::first_values;
pub use parts::PartArrays;
use parts::{ready_correctness, ready_opening};
use plans::{GroupSize, Part, PartSearch};
use points::plan::{MET, READY, RELATED, STATES, STEPS};
use points::slots;
use search_groups::Dossier;
use search_groups::contexts::CONCRETE_STATE;
use seek::{Span, seek, store};
use slot_carriers::groups::bind;
use slot_carriers::{CELLS, SLOTS, count_of};
use states::context_holds;
use std::marker::Model;

// A concrete step beside an abstract state: the abstract state before, inputs, outputs, the concrete state after.
#[derive(Clone, Copy)]
pub struct Stepped {
    pub a: usize,
    pub i: usize,
    pub o: usize,
    pub k: usize,
}

// What the searches of an operation's correctness part go over, of some dossier.
#[derive(Drop)]
pub struct StepSearch<'a> {
    pub search: PartSearch<'a>,
}

impl<'a> Model for StepSearch<'a> {
    ghost use Rattle.plans.specs.declared.PartSearch.{PartSearch};
    ghost use Rattle.step_searches.specs.StepPromises.{StepsAsked};

    ghost Value = { PartSearch };

    ghost view = { λ s. s.search };

    ghost invariant = { λ s. StepsAsked s.search.table.now s.search.plan.now s.search.cells.now s.search.part };
}

// A dossier that was read: its arrays, and how many operations it has, are what `read` leaves of a text.
#[derive(Drop)]
pub struct ReadDossier<'a> {
    pub arrays: Dossier<'a>,
}

impl<'a> Model for ReadDossier<'a> {
    ghost use Rattle.search_groups.specs.declared.Dossier.{Dossier};
    ghost use Rattle.step_searches.specs.StepPromises.{ReadAsked};

    ghost Value = { Dossier };

    ghost view = { λ d. d.arrays };

    ghost invariant = { λ d. ReadAsked d.arrays.table.now d.arrays.rows.now d.arrays.firsts.now d.arrays.groups.now d.arrays.operations };
}

// What a search among states goes over: the dossier, the cells of a part's variables, and the part's sizes.
#[derive(Drop)]
pub struct StateSearch<'a> {
    pub dossier: Dossier<'a>,
    pub cells: [u32; CELLS],
    pub part: Part,
}

// A group of variables at one of its bindings: those from a slot on, at the k-th.
#[derive(Clone, Copy)]
struct Given {
    base: usize,
    size: GroupSize,
    k: usize,
}

// The variables of a group get the values of its binding, primed ones in both arrays.
// Form 2: of the loop of `slot_carriers::groups::bind` it has the three lines that take the digits off: what is done with a digit is one store there, two in two arrays
// here. A function that answers the digits leaves a second loop over them to each of the two, and a closure that is handed one digit after the other writes
// an array that it captures, of which no law says what stands in it behind the loop.
fn put_group(cells: &[u32; CELLS], g: Given, arrays: &mut [[i64; SLOTS]; 2])
    requires { PutAsked cells.now g.base g.size.variables g.size.bindings g.k arrays.old }
    ensures { PutAnswers cells.now g.base g.size.variables g.k arrays.old arrays.new }
{
    let (mut w, mut k) = (g.size.bindings, g.k);
    for slot in g.base..g.base + g.size.variables {
        w /= count_of(cells, slot);
        store(cells, slot, k / w, arrays);
        k %= w;
    }
}

// Operation j's correctness part.
pub fn prepare(d: &Dossier<'_>, j: usize, a: &mut PartArrays) -> Part
    requires prepare_asked { PrepareAsked d.now.table.now d.now.rows.now d.now.firsts.now d.now.groups.now j }
    requires blank { Blank a.old.cells }
    ensures { Prepared d.now.table.now d.now.rows.now d.now.firsts.now d.now.groups.now j a.new.plan a.new.cells result }
{
    ready_correctness(d, j, a)
}

// That of initialisation.
pub fn prepare_opening(d: &Dossier<'_>, a: &mut PartArrays) -> Part
    requires open_asked { OpenAsked d.now.table.now d.now.rows.now d.now.firsts.now d.now.groups.now }
    requires blank { Blank a.old.cells }
    ensures { Opened d.now.table.now d.now.rows.now d.now.firsts.now d.now.groups.now a.new.plan a.new.cells result }
{
    ready_opening(d, a)
}

// The next number of a span that the search finds, with some groups at the bindings that are given and all other variables at their first values.
fn next_with(
    s: &PartSearch<'_>,
    given: &[Given],
    span: Span,
    memo: &mut [u64; memo::NUMBERS],
) -> Option<usize>
    requires given_asked { GivenAsked s.now.table.now s.now.plan.now s.now.cells.now given.now span.u span.j span.size.variables span.size.bindings span.from }
    requires memo { Memo s.now.table.now memo.old }
    ensures answers { GivenAnswers s.now.table.now s.now.plan.now s.now.cells.now given.now span.u span.j span.size.variables span.size.bindings span.from (unwrap_or result span.size.bindings) }
    ensures low { IfSome result (λ k. k < span.size.bindings) }
    ensures remembers { Memo s.now.table.now memo.new }
{
    let mut arrays = first_values(s.cells);
    for g in given {
        put_group(s.cells, *g, &mut arrays);
    }
    let r = seek(s, span, &mut arrays, memo);
    (r < span.size.bindings).then_some(r)
}

// The next abstract state.
pub fn next_abstract_state(
    s: &StepSearch<'_>,
    from: usize,
    memo: &mut [u64; memo::NUMBERS],
) -> Option<usize>
    requires from_le_na { from ≤ s.now.part.abstracts.bindings }
    requires memo { Memo s.now.table.now memo.old }
    ensures found { AbstractStateFound s.now.table.now s.now.plan.now s.now.cells.now s.now.part from (unwrap_or result s.now.part.abstracts.bindings) }
    ensures low { IfSome result (λ x. x < s.now.part.abstracts.bindings) }
    ensures remembers { Memo s.now.table.now memo.new }
{
    let span = Span {
        u: STATES,
        j: 0,
        size: s.search.part.abstracts,
        from,
    };
    next_with(&s.search, &[], span, memo)
}

// The next concrete state that is related to the abstract state a.
pub fn next_related_state(
    s: &StepSearch<'_>,
    a: usize,
    from: usize,
    memo: &mut [u64; memo::NUMBERS],
) -> Option<usize>
    requires a_lt_na { (a < s.now.part.abstracts.bindings) × (from ≤ s.now.part.concretes.bindings) }
    requires memo { Memo s.now.table.now memo.old }
    ensures found { RelatedStateFound s.now.table.now s.now.plan.now s.now.cells.now s.now.part a from (unwrap_or result s.now.part.concretes.bindings) }
    ensures low { IfSome result (λ x. x < s.now.part.concretes.bindings) }
    ensures remembers { Memo s.now.table.now memo.new }
{
    let p = s.search.part;
    let state = Given {
        base: slots::ABSTRACT,
        size: p.abstracts,
        k: a,
    };
    let span = Span {
        u: RELATED,
        j: 0,
        size: p.concretes,
        from,
    };
    next_with(&s.search, &[state], span, memo)
}

// The next step of the abstract operation from the state a with the inputs i: outputs and after state as one number.
// Form 2: what this and `next_concrete_step` share is `next_with` and the five lines of the inputs, and a function for both would have the five clauses of `next_with` beside those of
// the two. Left are the plan, the state's group, the size of outputs and states after (which is `readying` here and made there) and the promise of each.
pub fn next_abstract_step(
    s: &StepSearch<'_>,
    a: usize,
    i: usize,
    from: usize,
    memo: &mut [u64; memo::NUMBERS],
) -> Option<usize>
    requires a_lt_na { (a < s.now.part.abstracts.bindings) × (i < s.now.part.inputs.bindings) × (from ≤ s.now.part.outputs.bindings * s.now.part.abstracts.bindings) }
    requires memo { Memo s.now.table.now memo.old }
    ensures found { AbstractStepFound s.now.table.now s.now.plan.now s.now.cells.now s.now.part a i from (unwrap_or result (s.now.part.outputs.bindings * s.now.part.abstracts.bindings)) }
    ensures low { IfSome result (λ x. x < s.now.part.outputs.bindings * s.now.part.abstracts.bindings) }
    ensures remembers { Memo s.now.table.now memo.new }
{
    let p = s.search.part;
    let state = Given {
        base: slots::ABSTRACT,
        size: p.abstracts,
        k: a,
    };
    let inputs = Given {
        base: slots::INPUTS,
        size: p.inputs,
        k: i,
    };
    let span = Span {
        u: READY,
        j: 0,
        size: p.readying,
        from,
    };
    next_with(&s.search, &[state, inputs], span, memo)
}

// The next step of the concrete operation from the state c with the inputs i: outputs and after state as one number.
// Form 2: as `next_abstract_step`.
pub fn next_concrete_step(
    s: &StepSearch<'_>,
    c: usize,
    i: usize,
    from: usize,
    memo: &mut [u64; memo::NUMBERS],
) -> Option<usize>
    requires c_lt_nc { (c < s.now.part.concretes.bindings) × (i < s.now.part.inputs.bindings) × (from ≤ s.now.part.outputs.bindings * s.now.part.concretes.bindings) }
    requires memo { Memo s.now.table.now memo.old }
    ensures found { ConcreteStepFound s.now.table.now s.now.plan.now s.now.cells.now s.now.part c i from (unwrap_or result (s.now.part.outputs.bindings * s.now.part.concretes.bindings)) }
    ensures low { IfSome result (λ x. x < s.now.part.outputs.bindings * s.now.part.concretes.bindings) }
    ensures remembers { Memo s.now.table.now memo.new }
{
    let p = s.search.part;
    let state = Given {
        base: slots::CONCRETE,
        size: p.concretes,
        k: c,
    };
    let inputs = Given {
        base: slots::INPUTS,
        size: p.inputs,
        k: i,
    };
    let span = Span {
        u: STEPS,
        j: 0,
        size: p.outputs.with(p.concretes),
        from,
    };
    next_with(&s.search, &[state, inputs], span, memo)
}

// The next abstract after state that the abstract operation reaches from b.a with these inputs and outputs, and that is related to the concrete after state.
pub fn next_matching_state(
    s: &StepSearch<'_>,
    b: Stepped,
    from: usize,
    memo: &mut [u64; memo::NUMBERS],
) -> Option<usize>
    requires below { Below s.now.part b }
    requires from_le_na { from ≤ s.now.part.abstracts.bindings }
    requires memo { Memo s.now.table.now memo.old }
    ensures found { MatchFound s.now.table.now s.now.plan.now s.now.cells.now s.now.part b.a b.i b.o b.k from (unwrap_or result s.now.part.abstracts.bindings) }
    ensures low { IfSome result (λ x. x < s.now.part.abstracts.bindings) }
    ensures remembers { Memo s.now.table.now memo.new }
{
    let p = s.search.part;
    let state = Given {
        base: slots::ABSTRACT,
        size: p.abstracts,
        k: b.a,
    };
    let inputs = Given {
        base: slots::INPUTS,
        size: p.inputs,
        k: b.i,
    };
    let outputs = Given {
        base: slots::OUTPUTS,
        size: p.outputs,
        k: b.o,
    };
    let after = Given {
        base: slots::CONCRETE_PRIMED,
        size: p.primes,
        k: b.k,
    };
    let span = Span {
        u: MET,
        j: 0,
        size: p.meeting,
        from,
    };
    next_with(&s.search, &[state, inputs, outputs, after], span, memo)
}

// The next concrete initial state; the part is that of initialisation.
// Form 2: what it shares with `next_abstract_state` is `next_with`; left are the plan, the group and the promise of each.
pub fn next_initial_state(
    s: &PartSearch<'_>,
    from: usize,
    memo: &mut [u64; memo::NUMBERS],
) -> Option<usize>
    requires from_le_nc { from ≤ s.now.part.concretes.bindings }
    requires opening_asked { OpeningAsked s.now.table.now s.now.plan.now s.now.cells.now s.now.part }
    requires memo { Memo s.now.table.now memo.old }
    ensures found { InitialStateFound s.now.table.now s.now.plan.now s.now.cells.now s.now.part from (unwrap_or result s.now.part.concretes.bindings) }
    ensures low { IfSome result (λ x. x < s.now.part.concretes.bindings) }
    ensures remembers { Memo s.now.table.now memo.new }
{
    let span = Span {
        u: RELATED,
        j: 0,
        size: s.part.concretes,
        from,
    };
    next_with(s, &[], span, memo)
}

// The next abstract initial state that is related to the concrete state c.
// Form 2: what it shares with `next_related_state` is `next_with`; left are the plan, the groups and the promise of each.
pub fn next_initial_match(
    s: &PartSearch<'_>,
    c: usize,
    from: usize,
    memo: &mut [u64; memo::NUMBERS],
) -> Option<usize>
    requires c_lt_nc { (c < s.now.part.concretes.bindings) × (from ≤ s.now.part.meeting.bindings) }
    requires opening_asked { OpeningAsked s.now.table.now s.now.plan.now s.now.cells.now s.now.part }
    requires memo { Memo s.now.table.now memo.old }
    ensures found { InitialMatchFound s.now.table.now s.now.plan.now s.now.cells.now s.now.part c from (unwrap_or result s.now.part.meeting.bindings) }
    ensures low { IfSome result (λ x. x < s.now.part.meeting.bindings) }
    ensures remembers { Memo s.now.table.now memo.new }
{
    let p = s.part;
    let state = Given {
        base: slots::CONCRETE,
        size: p.concretes,
        k: c,
    };
    let span = Span {
        u: MET,
        j: 0,
        size: p.meeting,
        from,
    };
    next_with(s, &[state], span, memo)
}

// Is the c-th binding of the concrete variables a state?
pub fn concrete_state_at(s: &StateSearch<'_>, c: usize) -> bool
    requires c_lt_nc { c < s.now.part.concretes.bindings }
    requires concrete_asked { ConcreteAsked s.now.dossier.table.now s.now.dossier.rows.now s.now.dossier.firsts.now s.now.cells s.now.part }
    ensures { StateAnswers s.now.dossier.table.now s.now.dossier.rows.now s.now.dossier.firsts.now s.now.cells s.now.part c result }
{
    let concretes = s.part.concretes;
    let mut values = [0i64; SLOTS];
    bind(&s.cells, slots::CONCRETE, concretes, c, &mut values);
    context_holds(&s.dossier, CONCRETE_STATE, &mut values)
}

// The next concrete state, related or not; the part is any of the dossier's. No crate here calls it: with `next_initial_state` and `concrete_state_at` it is what is promised of the
// concrete states alone, for a program that goes through them as `state_facts` goes through the abstract ones.
pub fn next_concrete_state(s: &StateSearch<'_>, from: usize) -> Option<usize>
    requires concrete_asked { ConcreteAsked s.now.dossier.table.now s.now.dossier.rows.now s.now.dossier.firsts.now s.now.cells s.now.part }
    ensures { ConcreteStateFound s.now.dossier.table.now s.now.dossier.rows.now s.now.dossier.firsts.now s.now.cells s.now.part from result }
{
    (from..s.part.concretes.bindings).find(|&c| concrete_state_at(s, c))
}
