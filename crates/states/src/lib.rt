// The tests of states, initial states, retrieve and steps, at the values in the slots. The rows of a predicate's conjuncts are 8 numbers each, of which the second
// is where the conjunct's table ends (search_groups/specs/Conjuncts); `firsts` says where the rows of each predicate begin. The slots are left as they were.
// Of three tests the last two stand in parentheses: else two ways meet in front of the third, and each answer of the proof has both.
#![tactic(auto)]

ghost use Rattle.std.specs.Prelude.{◌≡◌};
ghost use Rattle.states.specs.Promises.{RowsAsked, RowsAnswer, ContextAsked, ContextAnswers};
ghost use Rattle.states.specs.Promises.{AbstractInitialAsked, AbstractInitialAnswers, ConcreteInitialAsked, ConcreteInitialAnswers};
ghost use Rattle.states.specs.Promises.{RelatedAsked, RelatedAnswers};
ghost use Rattle.states.specs.Promises.{AbstractStepAsked, AbstractStepAnswers, ConcreteStepAsked, ConcreteStepAnswers};

use evaluator::SLOTS;
use search_groups::Dossier;
use search_groups::columns::END;
use search_groups::conjuncts::ROW;
use search_groups::contexts::{
    ABSTRACT_STATE, AINIT, CINIT, CONCRETE_SIDE, CONCRETE_STATE, OPERATIONS, RETRIEVE, SIDES,
};
use truths::truth;

// Form 2: `rows_free` of state_facts walks the rows alike and asks the table alone. One walk for both would be handed the test as a closure; see Form 3.
// Form 3: tried: `all` over these places, with a closure that lends the values. That it may be called at each of them is proved as in `rows_free`; what `all`
// promises says nothing of what such a closure has changed once it is gone, so that `kept` stays open.
// Do all conjuncts of the rows between two places hold? The first that does not decides.
fn all_hold(d: &Dossier<'_>, from: usize, to: usize, slots: &mut [i64; SLOTS]) -> bool
    requires { RowsAsked d.now.table.now d.now.rows.now from to slots.old }
    ensures answers { RowsAnswer d.now.table.now d.now.rows.now from to slots.old result }
    ensures kept { slots.new ≡ slots.old }
{
    for i in (from..to).step_by(ROW) {
        let end = usize::from(d.rows[i + END]);
        if !truth(d.table, end, slots) {
            return false;
        }
    }
    true
}

// Does the predicate of the n-th context hold (static_rules/specs/Scope.contexts)?
pub fn context_holds(d: &Dossier<'_>, n: usize, slots: &mut [i64; SLOTS]) -> bool
    requires { ContextAsked d.now.table.now d.now.rows.now d.now.firsts.now n slots.old }
    ensures answers { ContextAnswers d.now.table.now d.now.rows.now d.now.firsts.now n slots.old result }
    ensures kept { slots.new ≡ slots.old }
{
    let from = usize::from(d.firsts[n]);
    let to = usize::from(d.firsts[n + 1]);
    all_hold(d, from, to, slots)
}

// Is the binding of the abstract variables an initial state: a state that meets ainit?
pub fn abstract_initial(d: &Dossier<'_>, slots: &mut [i64; SLOTS]) -> bool
    requires { AbstractInitialAsked d.now.table.now d.now.rows.now d.now.firsts.now slots.old }
    ensures answers { AbstractInitialAnswers d.now.table.now d.now.rows.now d.now.firsts.now slots.old result }
    ensures kept { slots.new ≡ slots.old }
{
    context_holds(d, ABSTRACT_STATE, slots) && context_holds(d, AINIT, slots)
}

// The same of the concrete variables and cinit.
// No function of these crates calls it or the two steps below: searches test states and steps level by level, by a plan. They stand for who has a whole binding or step in the slots and asks
// whether it is one: what they promise is each time the word of meaning/specs itself (`concrete_initial`, `abstract_step`, `concrete_step`), for every dossier that the table is of.
// Form 2: what it asks and promises is of its own bindings, and the code that the two could share is two calls.
pub fn concrete_initial(d: &Dossier<'_>, slots: &mut [i64; SLOTS]) -> bool
    requires { ConcreteInitialAsked d.now.table.now d.now.rows.now d.now.firsts.now slots.old }
    ensures answers { ConcreteInitialAnswers d.now.table.now d.now.rows.now d.now.firsts.now slots.old result }
    ensures kept { slots.new ≡ slots.old }
{
    context_holds(d, CONCRETE_STATE, slots) && context_holds(d, CINIT, slots)
}

// Are both bindings states, and related by retrieve?
pub fn related(d: &Dossier<'_>, slots: &mut [i64; SLOTS]) -> bool
    requires { RelatedAsked d.now.table.now d.now.rows.now d.now.firsts.now slots.old }
    ensures answers { RelatedAnswers d.now.table.now d.now.rows.now d.now.firsts.now slots.old result }
    ensures kept { slots.new ≡ slots.old }
{
    context_holds(d, ABSTRACT_STATE, slots)
        && (context_holds(d, CONCRETE_STATE, slots) && context_holds(d, RETRIEVE, slots))
}

// Is it a step of the k-th operation's abstract side? `slots` has the state before, the state after under its primed slots, inputs and outputs; `later` has the
// state after under the plain slots, so that the nodes of the state's predicate serve both states.
pub fn abstract_step(
    d: &Dossier<'_>,
    k: usize,
    slots: &mut [i64; SLOTS],
    later: &mut [i64; SLOTS],
) -> bool
    requires { AbstractStepAsked d.now.table.now d.now.rows.now d.now.firsts.now k slots.old later.old }
    ensures answers { AbstractStepAnswers d.now.table.now d.now.rows.now d.now.firsts.now k slots.old later.old result }
    ensures kept { slots.new ≡ slots.old }
    ensures later_kept { later.new ≡ later.old }
{
    context_holds(d, ABSTRACT_STATE, slots)
        && (context_holds(d, ABSTRACT_STATE, later)
            && context_holds(d, OPERATIONS + SIDES * k, slots))
}

// The same of its concrete side.
// Form 2: as `concrete_initial`, of three calls.
pub fn concrete_step(
    d: &Dossier<'_>,
    k: usize,
    slots: &mut [i64; SLOTS],
    later: &mut [i64; SLOTS],
) -> bool
    requires { ConcreteStepAsked d.now.table.now d.now.rows.now d.now.firsts.now k slots.old later.old }
    ensures answers { ConcreteStepAnswers d.now.table.now d.now.rows.now d.now.firsts.now k slots.old later.old result }
    ensures kept { slots.new ≡ slots.old }
    ensures later_kept { later.new ≡ later.old }
{
    context_holds(d, CONCRETE_STATE, slots)
        && (context_holds(d, CONCRETE_STATE, later)
            && context_holds(d, OPERATIONS + SIDES * k + CONCRETE_SIDE, slots))
}
