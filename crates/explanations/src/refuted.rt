// A counterexample: the binding, what holds there, and what fails.
// Form 5: an operation j and a binding x go together through six methods here. As a struct the two would be made anew where a step changes x (`stepped`) and taken apart at each item,
// which has both as fields of its own.
ghost use Rattle.std.specs.Prelude.{◌<◌};

use crate::bounds::product;
use crate::dossiers::Explanation;
use crate::items::states;
use pages::Bindings;
use phrases::words;
use state_facts::conjuncts::{false_conjunct, false_guard};
use state_facts::searches::next_abstract_initial;
use step_facts::{Pair, Widths, abstract_step, spans};

// How many states of a list are shown.
const SHOWN: usize = 4;

// A binding with the outputs and the abstract state after of a step by its number, where there are na abstract states.
fn stepped(x: Bindings, step: usize, na: usize) -> Bindings
    requires { 0 < na }
{
    Bindings {
        o: step / na,
        b: step % na,
        ..x
    }
}

// The numbers of a place of applicability.
fn applied(place: usize, s: Widths) -> Bindings
    requires { (0 < s.nc) × (0 < s.ni) }
{
    let x = place / s.ni;
    Bindings {
        a: x / s.nc,
        c: x % s.nc,
        i: place % s.ni,
        ..Bindings::default()
    }
}

// The numbers of a place of correctness.
fn corrected(place: usize, s: Widths) -> Bindings
    requires { (0 < s.nc) × (0 < s.ni) × (0 < s.nq) }
{
    let by_output = place / s.nc;
    Bindings {
        o: by_output % s.nq,
        k: place % s.nc,
        ..applied(by_output / s.nq, s)
    }
}

// A step by its number, if it is one before `end`.
fn first_of(step: Option<usize>, end: usize) -> Option<usize> {
    step.filter(|k| *k < end)
}

impl Explanation<'_, '_> {
    // The states of an item, and why they are not related.
    fn say_unrelated(&mut self, phrase: usize, j: usize, x: Bindings, pair: Pair) {
        self.page.say_at(phrase, j, x);
        let row = false_conjunct(&self.dossier, pair);
        if let Some(b) = self.conjunct_at(row) {
            self.page
                .say_of(words::WHY_TWO_STATES_ARE_NOT_RELATED, 0, b.from, b.to);
        }
    }

    // The states from the first on, as many as are shown; a state is said by the closure, which answers the next one. `and more` where there are others.
    fn say_states<F: Fn(usize, &mut Explanation<'_, '_>) -> Option<usize>>(
        &mut self,
        first: Option<usize>,
        say: F,
    )
        requires { F.IsAlwaysCallable say }
    {
        let mut next = first;
        for _ in 0..SHOWN {
            let Some(k) = next else {
                return;
            };
            next = say(k, self);
        }
        if next.is_some() {
            self.page.say(words::AND_MORE);
        }
    }

    // ---- initialisation

    // The abstract initial states from a on, each with why it is not related.
    fn say_initials(&mut self, first: usize, c: usize) {
        let say = |a: usize, e: &mut Explanation<'_, '_>| {
            let x = states(a, c);
            e.say_unrelated(words::AN_ABSTRACT_STATE, 0, x, Pair { a, c });
            next_abstract_initial(&e.dossier, a.saturating_add(1))
        };
        self.say_states(Some(first), say);
    }

    pub fn say_initialisation(&mut self, c: usize) {
        self.page.say(words::REFUTED_INITIALISATION);
        self.page
            .say_at(words::THE_BINDING_OF_INITIALISATION, 0, states(0, c));
        let Some(a) = next_abstract_initial(&self.dossier, 0) else {
            self.page.say(words::NO_INITIAL_STATE);
            return;
        };
        self.page.say(words::NO_RELATED_INITIAL_STATE);
        self.say_initials(a, c);
    }

    // ---- operations

    // The next abstract step of a binding from one on, by its number.
    fn next_step(&self, j: usize, x: Bindings, from: usize) -> Option<usize> {
        abstract_step(&self.dossier, j, x.a, x.i, from).unwrap_or(None)
    }

    // What is refuted of an operation, and its binding.
    fn say_binding(&mut self, phrase: usize, j: usize, x: Bindings) {
        self.page.say_for(phrase, j);
        self.page.say_at(words::THE_BINDING_OF_AN_OPERATION, j, x);
    }

    // ---- applicability

    pub fn say_applicability(&mut self, j: usize, place: usize) {
        let s = spans(&self.dossier, j);
        let x = applied(place, s);
        self.say_binding(words::REFUTED_APPLICABILITY, j, x);
        if let Some(step) = self.next_step(j, x, 0) {
            let holds = stepped(x, step, s.na);
            self.page
                .say_at(words::WHAT_HOLDS_OF_APPLICABILITY, j, holds);
        }
        self.page.say_for(words::WHAT_FAILS_OF_APPLICABILITY, j);
        self.say_guard(j, x);
        self.say_reached(x.a, x.c);
    }

    // Which condition of the concrete guard is false.
    fn say_guard(&mut self, j: usize, x: Bindings) {
        let row = false_guard(&self.dossier, j, x.c, x.i);
        match self.conjunct_at(row) {
            Some(b) => self
                .page
                .say_of(words::A_CONDITION_THAT_IS_FALSE, 0, b.from, b.to),
            None => self.page.say(words::NO_SINGLE_CONDITION),
        }
    }

    // ---- correctness

    // The abstract steps with the inputs and outputs of the binding from the first on, each with why it does not do.
    fn say_steps(&mut self, j: usize, x: Bindings, first: Option<usize>) {
        let s = spans(&self.dossier, j);
        let from = product(x.o, s.na);
        let end = product(x.o.saturating_add(1), s.na);
        let say = |k: usize, e: &mut Explanation<'_, '_>| {
            let b = k.saturating_sub(from);
            let after = Bindings { b, ..x };
            let pair = Pair { a: b, c: x.k };
            e.say_unrelated(words::AN_ABSTRACT_AFTER_STATE, j, after, pair);
            first_of(e.next_step(j, x, k.saturating_add(1)), end)
        };
        self.say_states(first_of(first, end), say);
    }

    // Which abstract steps there are with these outputs, or one with others.
    fn say_corrected(&mut self, j: usize, x: Bindings) {
        let s = spans(&self.dossier, j);
        let first = self.next_step(j, x, product(x.o, s.na));
        if first_of(first, product(x.o.saturating_add(1), s.na)).is_some() {
            self.page.say(words::ABSTRACT_STEPS);
            self.say_steps(j, x, first);
            return;
        }
        if let Some(q) = self.next_step(j, x, 0) {
            let other = stepped(x, q, s.na);
            self.page
                .say_at(words::NO_ABSTRACT_STEP_WITH_THESE_OUTPUTS, j, other);
        }
    }

    pub fn say_correctness(&mut self, j: usize, place: usize) {
        let s = spans(&self.dossier, j);
        let x = corrected(place, s);
        self.say_binding(words::REFUTED_CORRECTNESS, j, x);
        self.page
            .say_at(words::THE_CONCRETE_STEP_OF_A_BINDING, j, x);
        self.page.say_for(words::WHAT_HOLDS_OF_CORRECTNESS, j);
        self.page.say_for(words::WHAT_FAILS_OF_CORRECTNESS, j);
        self.say_corrected(j, x);
        self.say_reached(x.a, x.c);
    }
}
