// Searches among the numbers of one state's bindings. Each goes from a number on to the next binding that passes; there is none behind the last one.
ghost use Rattle.std.specs.Prelude.{◌<◌};
ghost use Rattle.state_facts.specs.Reads.{TestIs, PairIs, Next, Counted};
ghost use Rattle.state_facts.specs.Reads.{abstract_count, concrete_count, abstract_initial_at, abstract_state_at, concrete_state_at, related_at};
ghost use Rattle.state_facts.specs.Reads.{unrelated_concrete, unrelated_abstract, lonely_concrete, lonely_abstract};

use crate::placing::bind_pair;
use crate::{Pair, PairSearch, pair_search};
use search_groups::contexts::ABSTRACT_STATE;
use slot_carriers::SLOTS;
use states::{abstract_initial, context_holds, related};
use step_searches::{ReadDossier, concrete_state_at};

// Form 2: three functions here and `retrieve_false` of `conjuncts` make slots and bind a pair in two lines. As a function that gives the slots these are one line each, and what
// `bind_pair`, which `put_states` needs beside it, promises of the slots stands a second time.

// Is the a-th abstract binding an initial state?
fn initial_at(s: &PairSearch<'_>, a: usize) -> bool
    requires a_lt_nm { a < s.now.part.meeting.bindings }
    ensures { TestIs s.now.dossier.table.now s.now.dossier.rows.now s.now.dossier.firsts.now s.now.cells s.now.part abstract_initial_at a result }
{
    let mut slots = [0i64; SLOTS];
    bind_pair(&s.search, Pair { a, c: 0 }, &mut slots);
    abstract_initial(&s.search.dossier, &mut slots)
}

// The next abstract initial state.
pub fn next_abstract_initial(d: &ReadDossier<'_>, from: usize) -> Option<usize>
    ensures { Next d.now.table.now d.now.rows.now d.now.firsts.now d.now.groups.now d.now.operations abstract_initial_at abstract_count from result }
{
    let s = pair_search(d);
    (from..s.search.part.meeting.bindings).find(|&a| initial_at(&s, a))
}

// How many concrete states there are.
pub fn concrete_states(d: &ReadDossier<'_>) -> usize
    ensures { Counted d.now.table.now d.now.rows.now d.now.firsts.now d.now.groups.now d.now.operations concrete_state_at concrete_count result }
{
    let s = pair_search(d);
    (0..s.search.part.concretes.bindings)
        .filter(|&c| concrete_state_at(&s.search, c))
        .count()
}

// The next concrete state.
pub fn next_concrete_state(d: &ReadDossier<'_>, from: usize) -> Option<usize>
    ensures { Next d.now.table.now d.now.rows.now d.now.firsts.now d.now.groups.now d.now.operations concrete_state_at concrete_count from result }
{
    let s = pair_search(d);
    (from..s.search.part.concretes.bindings).find(|&c| concrete_state_at(&s.search, c))
}

// Are the two bindings states that retrieve relates?
fn related_at(s: &PairSearch<'_>, x: Pair) -> bool
    requires x_bound { (x.a < s.now.part.meeting.bindings) × (x.c < s.now.part.concretes.bindings) }
    ensures { PairIs s.now.dossier.table.now s.now.dossier.rows.now s.now.dossier.firsts.now s.now.cells s.now.part related_at x.a x.c result }
{
    let mut slots = [0i64; SLOTS];
    bind_pair(&s.search, x, &mut slots);
    related(&s.search.dossier, &mut slots)
}

// Is no abstract state related to the c-th concrete binding?
// Form 2: what the two sides share from here on is `any` and `find` of the library. They differ in the test of a state, in how many there are of the other side and in the order of a
// pair: a parameter for the side would be a `match` at each of the three.
fn unrelated_concrete(s: &PairSearch<'_>, c: usize) -> bool
    requires c_lt_nc { c < s.now.part.concretes.bindings }
    ensures { TestIs s.now.dossier.table.now s.now.dossier.rows.now s.now.dossier.firsts.now s.now.cells s.now.part unrelated_concrete c result }
{
    !(0..s.search.part.meeting.bindings).any(|a| related_at(s, Pair { a, c }))
}

// Is it a state that no abstract state is related to?
fn lonely_concrete_at(s: &PairSearch<'_>, c: usize) -> bool
    requires c_lt_nc { c < s.now.part.concretes.bindings }
    ensures { TestIs s.now.dossier.table.now s.now.dossier.rows.now s.now.dossier.firsts.now s.now.cells s.now.part lonely_concrete c result }
{
    concrete_state_at(&s.search, c) && unrelated_concrete(s, c)
}

// The next concrete state that no abstract state is related to.
pub fn next_lonely_concrete(d: &ReadDossier<'_>, from: usize) -> Option<usize>
    ensures { Next d.now.table.now d.now.rows.now d.now.firsts.now d.now.groups.now d.now.operations lonely_concrete concrete_count from result }
{
    let s = pair_search(d);
    (from..s.search.part.concretes.bindings).find(|&c| lonely_concrete_at(&s, c))
}

// Is the a-th abstract binding a state?
fn abstract_at(s: &PairSearch<'_>, a: usize) -> bool
    requires a_lt_nm { a < s.now.part.meeting.bindings }
    ensures { TestIs s.now.dossier.table.now s.now.dossier.rows.now s.now.dossier.firsts.now s.now.cells s.now.part abstract_state_at a result }
{
    let mut slots = [0i64; SLOTS];
    bind_pair(&s.search, Pair { a, c: 0 }, &mut slots);
    context_holds(&s.search.dossier, ABSTRACT_STATE, &mut slots)
}

// Is no concrete state related to it?
fn unrelated_abstract(s: &PairSearch<'_>, a: usize) -> bool
    requires a_lt_nm { a < s.now.part.meeting.bindings }
    ensures { TestIs s.now.dossier.table.now s.now.dossier.rows.now s.now.dossier.firsts.now s.now.cells s.now.part unrelated_abstract a result }
{
    !(0..s.search.part.concretes.bindings).any(|c| related_at(s, Pair { a, c }))
}

// Is it a state that no concrete state is related to?
fn lonely_abstract_at(s: &PairSearch<'_>, a: usize) -> bool
    requires a_lt_nm { a < s.now.part.meeting.bindings }
    ensures { TestIs s.now.dossier.table.now s.now.dossier.rows.now s.now.dossier.firsts.now s.now.cells s.now.part lonely_abstract a result }
{
    abstract_at(s, a) && unrelated_abstract(s, a)
}

// The next abstract state that no concrete state is related to.
pub fn next_lonely_abstract(d: &ReadDossier<'_>, from: usize) -> Option<usize>
    ensures { Next d.now.table.now d.now.rows.now d.now.firsts.now d.now.groups.now d.now.operations lonely_abstract abstract_count from result }
{
    let s = pair_search(d);
    (from..s.search.part.meeting.bindings).find(|&a| lonely_abstract_at(&s, a))
}
