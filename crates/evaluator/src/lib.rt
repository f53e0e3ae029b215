// The evaluator: values of terms and predicates over the table that the reader leaves (table_places/specs/ResolvedTable). A node is four numbers, second, first,
// end, shape, and stands behind its parts; `end` is the place behind a node, its last part ends where the node begins, an earlier one where the node says.
// A slot has the value of a variable or of a bound name; every function leaves the slots as they were. The caller lends the table: shapes and codes are numbers in it.
// Form 5: each walk asks `Inside end` for itself, since `end` is another one at each call: with a struct of table and `end` that has the fact, each of some
// thirty calls would write the struct with its two fields where it writes two arguments, and the fact would be shown there as it is now. `t` and `slots` go together through nine walks:
// the slots are lent to be written beside a table that is only read, and in a struct of both each of the nine would promise, beside `kept`, that the table is as it was.
#![tactic(auto)]

ghost use Rattle.std.specs.Prelude.{◌≡◌, ◌<◌, pos, nat_abs, ◌+ℤ◌, ◌-ℤ◌};
ghost use Rattle.operators.specs.EvaluationEvaluationByNumber.{Inside};
ghost use Rattle.evaluator.specs.EvaluationPromises.{TermRuns, IsCompound, TermAnswers, ItemsRun, ItemsAnswer, TruthRuns, TruthAnswers};
ghost use Rattle.evaluator.specs.EvaluationPromises.{SuchRuns, SuchAnswers, AskedRuns, AskedAnswers, QuantifierRuns, QuantifierAnswers, BoundRuns, SomeAnswers, OnceAnswers};

use form::node;
use form::node::RAISED;
use form::operator_codes::{EXISTS, FORALL, IN};
use operators::{
    asked, compared, connected, divided, has, in_range, joined, operated, pair, prefixed, settles,
    single,
};
pub use slot_carriers::SLOTS;
use table_nodes::table_shapes;

// Form 1: places in a node, no kinds.
// How far before its end a node's numbers stand. Behind the last part of a binder, and of a membership in a range, stand two nodes: that of the set or range, and its own.
pub const SHAPE_BACK: usize = 1;

pub const END_BACK: usize = 2;

pub const FIRST_BACK: usize = 3;

pub const SECOND_BACK: usize = 4;

pub const TWO_NODES: usize = node::SIZE + node::SIZE;

// The number of `true`.
const HOLDS: u16 = 1;

// The first number of a domain, of which its node has RAISED more, and the k-th one from there on.
fn lowest(w: u16) -> i64
    ensures is { result ≡ pos w -ℤ pos 1000 }
    ensures small { nat_abs result < 131072 }
{
    i64::from(w) - RAISED
}

fn counted(w: u16, k: u16) -> i64
    ensures { result ≡ (pos w -ℤ pos 1000) +ℤ pos k }
{
    lowest(w) + i64::from(k)
}

// The value of the term whose nodes end at `end`: of variables and numbers, which most terms are, without a further call.
#[cycle(evaluation)]
pub fn value(t: &[u16; node::NUMBERS], end: usize, slots: &mut [i64; SLOTS]) -> i64
    requires inside { Inside end }
    requires term_runs { TermRuns t.now end slots.old }
    ensures answers { TermAnswers t.now end slots.old result }
    ensures kept { slots.new ≡ slots.old }
{
    let shape = t[end - SHAPE_BACK];
    if shape == table_shapes::SLOT {
        return slots[usize::from(t[end - FIRST_BACK])];
    }
    if shape == table_shapes::VALUE {
        return i64::from(t[end - FIRST_BACK]);
    }
    compound(t, end, slots)
}

// That of a term which is neither of these.
#[cycle(evaluation)]
fn compound(t: &[u16; node::NUMBERS], end: usize, slots: &mut [i64; SLOTS]) -> i64
    requires inside { Inside end }
    requires term_runs { TermRuns t.now end slots.old }
    requires is_compound { IsCompound t.now end }
    ensures answers { TermAnswers t.now end slots.old result }
    ensures kept { slots.new ≡ slots.old }
{
    let first = t[end - FIRST_BACK];
    let shape = t[end - SHAPE_BACK];
    match shape {
        table_shapes::PREFIX => {
            let x = value(t, end - node::SIZE, slots);
            prefixed(first, t[end - END_BACK], t[end - SECOND_BACK], x)
        }
        table_shapes::DIVIDED => {
            let x = value(t, end - node::SIZE, slots);
            divided(first, t[end - SECOND_BACK], x)
        }
        table_shapes::BINARY => {
            let x = value(t, usize::from(t[end - END_BACK]), slots);
            let y = value(t, end - node::SIZE, slots);
            operated(first, x, y)
        }
        table_shapes::SUCH => such(t, end, slots),
        _ => items(t, end - node::SIZE, slots),
    }
}

// The set of the items or pairs whose nodes end at `end`.
#[cycle(evaluation)]
fn items(t: &[u16; node::NUMBERS], end: usize, slots: &mut [i64; SLOTS]) -> i64
    requires inside { Inside end }
    requires items_run { ItemsRun t.now end slots.old }
    ensures answers { ItemsAnswer t.now end slots.old result }
    ensures kept { slots.new ≡ slots.old }
{
    let first = t[end - FIRST_BACK];
    let shape = t[end - SHAPE_BACK];
    match shape {
        table_shapes::LAST_ITEM => {
            let x = value(t, end - node::SIZE, slots);
            single(x)
        }
        table_shapes::ALSO_ITEM => {
            let x = value(t, usize::from(t[end - END_BACK]), slots);
            let s = items(t, end - node::SIZE, slots);
            joined(single(x), s)
        }
        table_shapes::LAST_PAIR => {
            let x = value(t, usize::from(t[end - END_BACK]), slots);
            let y = value(t, end - node::SIZE, slots);
            single(pair(first, x, y))
        }
        _ => {
            let x = value(t, usize::from(t[end - END_BACK]), slots);
            let y = value(t, usize::from(t[end - SECOND_BACK]), slots);
            let s = items(t, end - node::SIZE, slots);
            joined(single(pair(first, x, y)), s)
        }
    }
}

// {x : G | p}: the elements at which the predicate holds, from the last bit down.
// Form 2: `points::masks::mask_of` makes such a mask by a test that changes nothing. This one writes the slot before it asks, and what a closure has written is
// known to no law once the closure is gone, so that `kept` would stay open (as at `states::all_hold`).
#[cycle(evaluation)]
fn such(t: &[u16; node::NUMBERS], end: usize, slots: &mut [i64; SLOTS]) -> i64
    requires inside { Inside end }
    requires such_runs { SuchRuns t.now end slots.old }
    ensures answers { SuchAnswers t.now end slots.old result }
    ensures kept { slots.new ≡ slots.old }
{
    let slot = usize::from(t[end - FIRST_BACK]);
    let old = slots[slot];
    let n = t[end - node::SIZE - SECOND_BACK];
    let mut s: u32 = 0;
    for k in (0..n).rev() {
        slots[slot] = i64::from(k);
        s = 2 * s + u32::from(holds(t, end - TWO_NODES, slots));
    }
    slots[slot] = old;
    i64::from(s)
}

// Whether the predicate whose nodes end at `end` holds.
#[cycle(evaluation)]
pub fn holds(t: &[u16; node::NUMBERS], end: usize, slots: &mut [i64; SLOTS]) -> bool
    requires inside { Inside end }
    requires truth_runs { TruthRuns t.now end slots.old }
    ensures answers { TruthAnswers t.now end slots.old result }
    ensures kept { slots.new ≡ slots.old }
{
    let first = t[end - FIRST_BACK];
    let shape = t[end - SHAPE_BACK];
    match shape {
        table_shapes::TRUTH => first == HOLDS,
        table_shapes::NEGATION => !holds(t, end - node::SIZE, slots),
        table_shapes::CONNECTED => {
            let p = holds(t, usize::from(t[end - END_BACK]), slots);
            if settles(first, p) {
                return connected(first, p, false);
            }
            let q = holds(t, end - node::SIZE, slots);
            connected(first, p, q)
        }
        table_shapes::COMPARED => {
            let x = value(t, usize::from(t[end - END_BACK]), slots);
            let y = value(t, end - node::SIZE, slots);
            compared(first, x, y)
        }
        table_shapes::QUANTIFIED => quantified(t, end, slots),
        _ => member(t, end, slots),
    }
}

// in and notin: an element and its set, a number and a range, a pair and its relation.
#[cycle(evaluation)]
fn member(t: &[u16; node::NUMBERS], end: usize, slots: &mut [i64; SLOTS]) -> bool
    requires inside { Inside end }
    requires asked_runs { AskedRuns t.now end slots.old }
    ensures answers { AskedAnswers t.now end slots.old result }
    ensures kept { slots.new ≡ slots.old }
{
    let first = t[end - FIRST_BACK];
    let shape = t[end - SHAPE_BACK];
    match shape {
        table_shapes::MEMBER => {
            let x = value(t, usize::from(t[end - END_BACK]), slots);
            let s = value(t, end - node::SIZE, slots);
            asked(first == IN, has(s, x))
        }
        table_shapes::WITHIN => {
            let x = value(t, end - TWO_NODES, slots);
            asked(
                first == IN,
                in_range(
                    lowest(t[end - node::SIZE - FIRST_BACK]),
                    t[end - node::SIZE - SECOND_BACK],
                    x,
                ),
            )
        }
        _ => {
            let x = value(t, usize::from(t[end - END_BACK]), slots);
            let y = value(t, usize::from(t[end - SECOND_BACK]), slots);
            let s = value(t, end - node::SIZE, slots);
            asked(shape == table_shapes::RELATED, has(s, pair(first, x, y)))
        }
    }
}

// forall is no value at which the predicate is false, exists some value at which it is true, exists1 exactly one such value.
#[cycle(evaluation)]
fn quantified(t: &[u16; node::NUMBERS], end: usize, slots: &mut [i64; SLOTS]) -> bool
    requires inside { Inside end }
    requires quantifier_runs { QuantifierRuns t.now end slots.old }
    ensures answers { QuantifierAnswers t.now end slots.old result }
    ensures kept { slots.new ≡ slots.old }
{
    let code = t[end - SECOND_BACK];
    match code {
        FORALL => !some(t, end, false, slots),
        EXISTS => some(t, end, true, slots),
        _ => once(t, end, slots),
    }
}

// Is the predicate of the quantifier as wanted at one of the values?
// Form 7: `wanted` is the truth value that is looked for, false in forall and true in exists: what is compared, not which step to run.
#[cycle(evaluation)]
fn some(t: &[u16; node::NUMBERS], end: usize, wanted: bool, slots: &mut [i64; SLOTS]) -> bool
    requires inside { Inside end }
    requires bound_runs { BoundRuns t.now end slots.old }
    ensures answers { SomeAnswers t.now end slots.old wanted result }
    ensures kept { slots.new ≡ slots.old }
{
    let slot = usize::from(t[end - FIRST_BACK]);
    let low = t[end - node::SIZE - FIRST_BACK];
    let n = t[end - node::SIZE - SECOND_BACK];
    let old = slots[slot];
    for k in 0..n {
        slots[slot] = counted(low, k);
        let p = holds(t, end - TWO_NODES, slots);
        if asked(wanted, p) {
            slots[slot] = old;
            return true;
        }
    }
    slots[slot] = old;
    false
}

// Does it hold at exactly one of them?
#[cycle(evaluation)]
fn once(t: &[u16; node::NUMBERS], end: usize, slots: &mut [i64; SLOTS]) -> bool
    requires inside { Inside end }
    requires bound_runs { BoundRuns t.now end slots.old }
    ensures answers { OnceAnswers t.now end slots.old result }
    ensures kept { slots.new ≡ slots.old }
{
    let slot = usize::from(t[end - FIRST_BACK]);
    let low = t[end - node::SIZE - FIRST_BACK];
    let n = t[end - node::SIZE - SECOND_BACK];
    let old = slots[slot];
    let mut found: u32 = 0;
    for k in 0..n {
        slots[slot] = counted(low, k);
        found += u32::from(holds(t, end - TWO_NODES, slots));
    }
    slots[slot] = old;
    found == 1
}
