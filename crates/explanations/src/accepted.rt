// What an accepted dossier bought, in numbers, and a run of both machines side by side.
use crate::bounds::{MOST_PAIRS, is_short, product};
use crate::dossiers::Explanation;
use crate::items::states;
use pages::Bindings;
use phrases::words;
use state_facts::searches::{concrete_states, next_lonely_abstract, next_lonely_concrete};
use step_facts::{
    Beginning, BothStep, Pair, abstract_states, begin, promises, related_pairs, spans, state_spans,
    step,
};

impl Explanation<'_, '_> {
    // States that have no partner on the other side.
    fn say_lonely(&mut self) {
        if let Some(c) = next_lonely_concrete(&self.dossier, 0) {
            self.page.say_at(
                words::A_CONCRETE_STATE_THAT_STANDS_FOR_NOTHING,
                0,
                states(0, c),
            );
        }
        if let Some(a) = next_lonely_abstract(&self.dossier, 0) {
            self.page.say_at(
                words::AN_ABSTRACT_STATE_THAT_NOTHING_STANDS_FOR,
                0,
                states(a, 0),
            );
        }
    }

    // Where the abstract side of an operation promises to step, of `many` abstract states.
    fn say_promises(&mut self, j: usize, many: usize) {
        let s = spans(&self.dossier, j);
        if !is_short(s) {
            self.page.say_for(words::PROMISES_LEFT_OUT, j);
            return;
        }
        match promises(&self.dossier, j) {
            0 => self.page.say_for(words::NO_PROMISE, j),
            n => self.page.say_of(words::PROMISES, j, n, product(many, s.ni)),
        }
    }

    // States and related pairs, counted.
    fn say_counts(&mut self) {
        let s = state_spans(&self.dossier);
        let pairs = product(s.na, s.nc);
        if MOST_PAIRS < pairs {
            self.page
                .say_of(words::COUNTS_LEFT_OUT, 0, pairs, MOST_PAIRS);
            return;
        }
        let a = abstract_states(&self.dossier);
        self.page.say_of(words::STATES, 0, a, 0);
        let c = concrete_states(&self.dossier);
        self.page.say_of(words::CONCRETE_STATES, 0, c, 0);
        let n = related_pairs(&self.dossier);
        self.page.say_of(words::RELATED_PAIRS, 0, n, 0);
        self.say_lonely();
        for j in 0..self.dossier.arrays.operations {
            self.say_promises(j, a);
        }
    }

    // ---- a run

    fn say_step(&mut self, j: usize, s: BothStep) {
        let parameters = Bindings {
            i: s.i,
            o: s.o,
            ..Bindings::default()
        };
        self.page.say_at(words::A_STEP_OF_THE_RUN, j, parameters);
        self.page
            .say_at(words::THE_STATES_BEHIND_A_STEP, j, states(s.b, s.k));
    }

    // The operations one after the other, each where the abstract side promises it.
    fn say_run(&mut self, x: Pair) {
        self.page.say_at(words::A_RUN, 0, states(x.a, x.c));
        let mut at = x;
        for j in 0..self.dossier.arrays.operations {
            if let Some(s) = step(&self.dossier, j, at) {
                self.say_step(j, s);
                at = Pair { a: s.b, c: s.k };
            }
        }
    }

    pub fn say_accepted(&mut self) {
        self.page.say(words::ACCEPTED);
        self.page.say(words::WHAT_WAS_BOUGHT);
        if self.dossier.arrays.operations == 0 {
            self.page.say(words::NO_OPERATION);
            return;
        }
        let run = match begin(&self.dossier) {
            Beginning::Both(x) => Some(x),
            Beginning::Concrete(_) | Beginning::Nowhere => None,
        };
        if run.is_none() {
            self.page.say(words::NO_CONCRETE_INITIAL_STATE);
        }
        self.say_counts();
        if let Some(x) = run {
            self.say_run(x);
        }
    }
}
