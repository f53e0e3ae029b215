// One primitive for all searching: the least number, from a given one on, of a binding of the variables of a search at which all its tests hold. `slots` has two arrays: the values
// before and the primed ones; those of the after state under the plain slots.
// Form 5: the slots and the memory are lent to be written beside a search that is only read: in a struct of all three each function would have to promise that the search is as it was.
// Slots and memory as one value without the search: what the memory means, `Memo`, is of the search's table, so that no field of that value could say it, and each function would have the
// same four clauses; `store` and `aim` take the slots alone, `nest::sweep` makes the memory and is lent the slots.
// `slot < 38`: as a type it would be made in `seek` and in `store`, which takes any caller's number, each time from the fact that is asked there now, and be opened where the four small
// functions that ask it compare or count.
// That u is one of the five searches: as in `plans`.
#![tactic(auto)]

ghost use Rattle.std.specs.Prelude.{◌≡◌, ◌+◌, ◌<◌, ◌≤◌, MatchOption};
ghost use Rattle.memo.specs.MemoPromises.{Memo};
ghost use Rattle.points.specs.Points.{primed_slot};
ghost use Rattle.points.specs.Searches.{slot_in, mark_in};
ghost use Rattle.seek.specs.AimPromises.{ReadAnswers, SolvedAnswers, EquationAnswers, AimAsked, AimAnswers};
ghost use Rattle.seek.specs.SeekPromises.{StoreAsked, StoreAnswers, LevelAsked, LevelAnswers, SeekAsked, SeekAnswers};

use evaluator::value;
use memo::recall;
use mentions::Mention;
use plans::{GroupSize, PLAN, PartSearch};
use points::plan::{FIRST_COUNT, FIRST_SLOT, HEAD, SECOND_SLOT};
use points::slots::{ABSTRACT_PRIMED, AFTER, BEFORE, CONCRETE, CONCRETE_PRIMED};
use slot_carriers::{CELLS, SLOTS, count_of, place_of, value_at};
use std::ops::Range;

// Bindings of the variables of the search u from number j on, how many there are of each: those from `from` on are looked at.
#[derive(Clone, Copy)]
pub struct Span {
    pub u: usize,
    pub j: usize,
    pub size: GroupSize,
    pub from: usize,
}

// The variable of a slot, with n values, and the level of the search u whose tests can be asked once it has one.
#[derive(Clone, Copy)]
struct Target {
    u: usize,
    l: usize,
    slot: usize,
    n: usize,
}

// A test, and where the term ends that it says a variable to be.
#[derive(Clone, Copy)]
struct Told {
    test: usize,
    end: usize,
}

// The slot of variable j of the search u.
fn slot_of(plan: &[u16; PLAN], u: usize, j: usize) -> usize
    requires { (u < 5) × (j < 16) }
    ensures { result ≡ slot_in plan.now u j }
{
    let n = usize::from(plan[HEAD * u + FIRST_COUNT]);
    if j < n {
        return usize::from(plan[HEAD * u + FIRST_SLOT]) + j;
    }
    usize::from(plan[HEAD * u + SECOND_SLOT]) + (j - n)
}

// The plain slot of a primed variable; none of another.
fn plain_slot(slot: usize) -> Option<usize>
    requires { slot < 38 }
    ensures { MatchOption result (slot < 22) (λ plain. (plain < 16) × (primed_slot plain ≡ slot) × (22 ≤ slot)) }
{
    if slot < CONCRETE_PRIMED {
        return None;
    }
    if slot < ABSTRACT_PRIMED {
        return Some(slot - CONCRETE_PRIMED + CONCRETE);
    }
    Some(slot - ABSTRACT_PRIMED)
}

// Gives the variable of a slot its x-th value, a primed one in both arrays.
pub fn store(cells: &[u32; CELLS], slot: usize, x: usize, slots: &mut [[i64; SLOTS]; 2])
    requires { StoreAsked cells.now slot x slots.old }
    ensures { StoreAnswers cells.now slot x slots.old slots.new }
{
    let v = value_at(cells, slot, x);
    slots[BEFORE][slot] = v;
    if let Some(plain) = plain_slot(slot) {
        slots[AFTER][plain] = v;
    }
}

// Do the tests of a level hold? The first that does not decides.
fn level(
    s: &PartSearch<'_>,
    u: usize,
    l: usize,
    slots: &mut [[i64; SLOTS]; 2],
    memo: &mut [u64; memo::NUMBERS],
) -> bool
    requires level_asked { LevelAsked s.now.table.now s.now.plan.now u l slots.old }
    requires memo { Memo s.now.table.now memo.old }
    ensures answers { LevelAnswers s.now.table.now s.now.plan.now u l slots.old result }
    ensures kept { slots.new ≡ slots.old }
    ensures remembers { Memo s.now.table.now memo.new }
{
    for k in s.tests(u, l) {
        let e = usize::from(s.plan[k]);
        if !recall(s.table, e / 2, &mut slots[e % 2], memo) {
            return false;
        }
    }
    true
}

// The slot under which a test reads the variable of a slot; none if it does not. Of the state after the values stand under the plain slots.
fn read_slot(e: usize, slot: usize) -> Option<usize>
    requires { slot < 38 }
    ensures { ReadAnswers e slot result }
{
    if e % 2 == BEFORE {
        return Some(slot);
    }
    plain_slot(slot)
}

// Where the term ends that a test says the variable of a slot to be, if it does.
fn solved(t: &[u16; 16384], e: usize, slot: usize) -> Option<usize>
    requires { slot < 38 }
    ensures { SolvedAnswers t.now e slot result }
{
    let own = read_slot(e, slot)?;
    let mention = Mention {
        table: t,
        slot: own,
    };
    mention.solving(e / 2)
}

// The first test of a level that says the variable of a slot to be some term.
fn equation(s: &PartSearch<'_>, u: usize, l: usize, slot: usize) -> Option<Told>
    requires { (u < 5) × (l ≤ 11) × (slot < 38) × (mark_in s.now.plan.now u (l + 1) ≤ 20560) }
    ensures { EquationAnswers s.now.table.now s.now.plan.now u l slot result }
{
    s.tests(u, l).find_map(
        |k|
            requires { (k < 20560) × (slot < 38) }
        {
            let test = usize::from(s.plan[k]);
            let end = solved(s.table, test, slot)?;
            Some(Told { test, end })
        },
    )
}

// Which of the variable's values to look at: all, or where a test says which it is, that one alone, if it is one of them. At all others that test fails.
fn aim(s: &PartSearch<'_>, g: Target, slots: &mut [[i64; SLOTS]; 2]) -> Range<usize>
    requires { AimAsked s.now.table.now s.now.plan.now s.now.cells.now g.u g.l g.slot g.n slots.old }
    ensures answers { AimAnswers s.now.table.now s.now.plan.now s.now.cells.now g.u g.l g.slot g.n slots.old result.start result.end }
    ensures kept { slots.new ≡ slots.old }
{
    let Some(q) = equation(s, g.u, g.l, g.slot) else {
        return 0..g.n;
    };
    let y = value(s.table, q.end, &mut slots[q.test % 2]);
    match place_of(s.cells, g.slot, y) {
        Some(d) => d..d + 1,
        None => g.n..g.n,
    }
}

// The search among the bindings of a span. What it finds stays in the slots.
// Form 1: where there is none the answer is span.size.bindings, the number behind the last: at all numbers before the answer some test fails, whether a binding is found or not, and the loops that go
// from one to the next need that one fact. With an Option each would turn none back into span.size.bindings.
pub fn seek(
    s: &PartSearch<'_>,
    span: Span,
    slots: &mut [[i64; SLOTS]; 2],
    memo: &mut [u64; memo::NUMBERS],
) -> usize
    requires seek_asked { SeekAsked s.now.table.now s.now.plan.now s.now.cells.now span.u span.j span.size.variables span.size.bindings span.from slots.old }
    requires memo { Memo s.now.table.now memo.old }
    ensures answers { SeekAnswers s.now.table.now s.now.plan.now s.now.cells.now span.u span.j span.size.variables span.size.bindings span.from slots.old slots.new result }
    ensures remembers { Memo s.now.table.now memo.new }
{
    if span.from == span.size.bindings {
        return span.size.bindings;
    }
    if !level(s, span.u, span.j, slots, memo) {
        return span.size.bindings;
    }
    if span.size.variables == 0 {
        return span.from;
    }
    let slot = slot_of(s.plan, span.u, span.j);
    let n = count_of(s.cells, slot);
    let v = span.size.bindings / n;
    let target = Target {
        u: span.u,
        l: span.j + 1,
        slot,
        n,
    };
    let b = aim(s, target, slots);
    let first = span.from.max(b.start * v);
    let mut r = first % v;
    for x in first / v..b.end {
        store(s.cells, slot, x, slots);
        let rest = Span {
            u: span.u,
            j: span.j + 1,
            size: GroupSize {
                variables: span.size.variables - 1,
                bindings: v,
            },
            from: r,
        };
        let k = seek(s, rest, slots, memo);
        if k < v {
            return x * v + k;
        }
        r = 0;
    }
    span.size.bindings
}
