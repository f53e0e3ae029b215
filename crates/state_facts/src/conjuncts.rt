// Which conjunct of a predicate fails. Conjuncts are told by where their rows begin: 8 numbers each (search_groups/specs/Conjuncts), of which the second is where the conjunct's table ends
// and the last six say which variables of each group it mentions.
ghost use Rattle.std.specs.Prelude.{ℕ, ◌≡◌, ◌+◌, ◌*◌, ◌<◌, ◌≤◌};
ghost use Rattle.states.specs.Promises.{ContextAsked};
ghost use Rattle.state_facts.specs.FalseConjuncts.{CountedFirst, guard_test, FalsePair, FalseConjunct};
ghost use Rattle.state_facts.specs.FalseConjuncts.{GuardAsked, FalseStep, FalseGuard};

use crate::placing::{bind_pair, put_parameters, put_states};
use crate::{Pair, PairSearch, correctness_of, pair_search, state_search};
use form::node::NUMBERS;
use pages::Bindings;
use search_groups::Dossier;
use search_groups::columns::{ABSTRACT_PRIMED, CONCRETE_PRIMED, END, OUTPUTS};
use search_groups::conjuncts::ROW;
use search_groups::contexts::{CONCRETE_SIDE, OPERATIONS, RETRIEVE, SIDES};
use slot_carriers::SLOTS;
use step_searches::{ReadDossier, StateSearch};
use truths::truth;

// The first conjunct of the n-th context's predicate that counts and fails.
// Form 3: tried: `find` over a closure that is lent the slots: that they are at each of its turns what they were at the first did not close, since no law of the library goes through a
// closure that changes what it captures.
fn first_false<F: Fn(usize) -> bool>(
    d: &Dossier<'_>,
    n: usize,
    counts: F,
    slots: &mut [i64; SLOTS],
) -> Option<usize>
    requires asked { ContextAsked d.now.table.now d.now.rows.now d.now.firsts.now n slots.old }
    requires counted { (i : ℕ) → i + 8 ≤ 16384 → F.pre counts i }
    ensures { CountedFirst (F.post counts) d.now.table.now d.now.rows.now d.now.firsts.now n slots.old result }
{
    let from = usize::from(d.firsts[n]);
    let to = usize::from(d.firsts[n + 1]);
    for i in (from..to).step_by(ROW) {
        if counts(i) && !truth(d.table, usize::from(d.rows[i + END]), slots) {
            return Some(i);
        }
    }
    None
}

// That of retrieve, for two states.
fn retrieve_false(s: &PairSearch<'_>, x: Pair) -> Option<usize>
    ensures { FalsePair s.now.dossier.table.now s.now.dossier.rows.now s.now.dossier.firsts.now s.now.cells s.now.part x.a x.c result }
{
    if s.search.part.meeting.bindings <= x.a || s.search.part.concretes.bindings <= x.c {
        return None;
    }
    let mut slots = [0i64; SLOTS];
    bind_pair(&s.search, x, &mut slots);
    first_false(&s.search.dossier, RETRIEVE, |_| true, &mut slots)
}

// Where the first conjunct of retrieve stands that fails for two states.
pub fn false_conjunct(d: &ReadDossier<'_>, x: Pair) -> Option<usize>
    ensures { FalseConjunct d.now.table.now d.now.rows.now d.now.firsts.now d.now.groups.now d.now.operations x.a x.c result }
{
    let s = pair_search(d);
    retrieve_false(&s, x)
}

// Does the conjunct of a row mention no output and no variable of a state after?
fn is_guard(rows: &[u16; NUMBERS], i: usize) -> bool
    requires { i + 8 ≤ 16384 }
    ensures { result ≡ guard_test rows.now i }
{
    rows[i + OUTPUTS] == 0 && rows[i + CONCRETE_PRIMED] == 0 && rows[i + ABSTRACT_PRIMED] == 0
}

// That of the j-th operation's concrete predicate, for the c-th concrete state and the i-th inputs. The state after and the outputs are some that there are: the conjuncts do not
// depend on them.
fn step_false(s: &StateSearch<'_>, j: usize, c: usize, i: usize) -> Option<usize>
    requires { GuardAsked s.now.dossier.table.now s.now.dossier.rows.now s.now.dossier.firsts.now s.now.cells s.now.part j }
    ensures { FalseStep s.now.dossier.table.now s.now.dossier.rows.now s.now.dossier.firsts.now s.now.cells s.now.part j c i result }
{
    if s.part.concretes.bindings <= c || s.part.inputs.bindings <= i {
        return None;
    }
    let mut slots = [0i64; SLOTS];
    let x = Bindings {
        c,
        i,
        k: c,
        ..Bindings::default()
    };
    put_states(s, x, &mut slots);
    put_parameters(s, x, &mut slots);
    first_false(
        &s.dossier,
        OPERATIONS + SIDES * j + CONCRETE_SIDE,
        |i|
            requires { i + 8 ≤ 16384 }
        { is_guard(s.dossier.rows, i) },
        &mut slots,
    )
}

// Where the first conjunct of the j-th operation's concrete predicate stands that mentions no output and no variable of a state after, and fails for the c-th concrete state and the
// i-th inputs: with it the operation has no step from there.
pub fn false_guard(d: &ReadDossier<'_>, j: usize, c: usize, i: usize) -> Option<usize>
    ensures { FalseGuard d.now.table.now d.now.rows.now d.now.firsts.now d.now.groups.now d.now.operations j c i result }
{
    if d.arrays.operations <= j {
        return None;
    }
    let s = state_search(&d.arrays, correctness_of(j));
    step_false(&s, j, c, i)
}
