// What is told of every dossier: what predicates leave out, and preconditions that differ.
ghost use Rattle.std.specs.Prelude.{◌≤◌};

use crate::bounds::is_short;
use crate::dossiers::Explanation;
use lexical::bounds::OPERATIONS;
use pages::Bindings;
use phrases::words;
use points::slots;
use search_groups::contexts;
use state_facts::omissions::left_out;
use step_facts::{Place, narrowed, spans, widened};

// The context of the abstract predicate of an operation; that of the concrete one is the next.
fn context_of(j: usize) -> usize
    ensures { result ≤ 37 }
{
    contexts::OPERATIONS + contexts::SIDES * j.min(usize::from(OPERATIONS))
}

// The variables of a group of n from a slot on that a predicate leaves out, by its context.
#[derive(Clone, Copy)]
struct Omission {
    phrase: usize,
    context: usize,
    slot: usize,
    n: usize,
}

impl Explanation<'_, '_> {
    fn say_omission(&mut self, j: usize, o: Omission) {
        let bits = left_out(&self.dossier, o.context, o.slot, o.n);
        if bits != 0 {
            self.page.say_of(o.phrase, j, bits, 0);
        }
    }

    // What the predicates of an operation leave out.
    fn say_left_out(&mut self, j: usize) {
        let n = self.counts_of(j);
        let context = context_of(j);
        let omissions = [
            Omission {
                phrase: words::ABSTRACT_PRIMED_VARIABLES,
                context,
                slot: slots::ABSTRACT_PRIMED,
                n: n.va,
            },
            Omission {
                phrase: words::OUTPUTS_OF_THE_ABSTRACT_SIDE,
                context,
                slot: slots::OUTPUTS,
                n: n.vo,
            },
            Omission {
                phrase: words::CONCRETE_PRIMED_VARIABLES,
                context: context + contexts::CONCRETE_SIDE,
                slot: slots::CONCRETE_PRIMED,
                n: n.vc,
            },
            Omission {
                phrase: words::OUTPUTS_OF_THE_CONCRETE_SIDE,
                context: context + contexts::CONCRETE_SIDE,
                slot: slots::OUTPUTS,
                n: n.vo,
            },
        ];
        for o in &omissions {
            self.say_omission(j, *o);
        }
    }

    // What the predicates of all operations leave out. What is listed is left out; that what is not listed is mentioned rests on `mentions::Mention::free_pred`,
    // whose promise is one-sided.
    pub fn say_omissions(&mut self) {
        self.page.say(words::WHAT_PREDICATES_LEAVE_OUT);
        let told = self.page.items().len();
        for j in 0..self.dossier.arrays.operations {
            self.say_left_out(j);
        }
        if self.page.items().len() == told {
            self.page.say(words::NOTHING_LEFT_OUT);
        }
    }

    // ---- preconditions

    // A place where the preconditions differ, if there is one.
    fn say_place(&mut self, phrase: usize, j: usize, place: Option<Place>) {
        if let Some(p) = place {
            let before = Bindings {
                a: p.a,
                c: p.c,
                i: p.i,
                ..Bindings::default()
            };
            self.page.say_at(phrase, j, before);
        }
    }

    fn say_precondition(&mut self, j: usize) {
        let s = spans(&self.dossier, j);
        if !is_short(s) {
            self.page.say_for(words::NOT_COMPARED, j);
            return;
        }
        let n = narrowed(&self.dossier, j);
        let w = widened(&self.dossier, j);
        self.say_place(words::NARROWED, j, n);
        self.say_place(words::WIDENED, j, w);
        if n.is_none() && w.is_none() {
            self.page.say_for(words::NEITHER, j);
        }
    }

    // The preconditions of all operations.
    pub fn say_preconditions(&mut self) {
        self.page.say(words::PRECONDITIONS);
        for j in 0..self.dossier.arrays.operations {
            self.say_precondition(j);
        }
    }
}
