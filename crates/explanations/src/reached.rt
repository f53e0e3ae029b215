// Whether both machines come to a pair of states, and by which list of operations.
use crate::bounds::product;
use crate::dossiers::Explanation;
use lexical::classes::at_or;
use pages::{Bindings, Item, plain};
use phrases::words;
use reached_pairs::marks::{self, Mark, PAIRS};
use reached_pairs::reach;
use step_facts::state_spans;

// How many pairs the search goes on from, so that its time is bounded.
const BUDGET: usize = 4096;

// The pair n entries before x.
fn pair_back(marks: &[Mark; PAIRS], x: usize, n: usize) -> usize {
    let mut y = x;
    for _ in 0..n {
        y = at_or(marks, y, marks::NONE).before as usize;
    }
    y
}

impl Explanation<'_, '_> {
    // The entries that lead to x, n in all, from the first on.
    fn say_entries(&mut self, marks: &[Mark; PAIRS], x: usize, n: usize) {
        for k in 0..n {
            let m = at_or(marks, pair_back(marks, x, n - (k + 1)), marks::NONE);
            self.page.add(Item {
                bindings: Bindings {
                    i: usize::from(m.input),
                    ..Bindings::default()
                },
                ..plain(
                    words::AN_ENTRY_OF_THE_LIST,
                    usize::from(m.operation),
                    k + 1,
                    0,
                )
            });
        }
    }

    // What the marks say of a pair of states.
    pub fn say_reached(&mut self, a: usize, c: usize) {
        let s = state_spans(&self.dossier);
        let mut marks = [marks::NONE; PAIRS];
        let whole = reach(&self.dossier, BUDGET, &mut marks);
        let x = product(a, s.nc).saturating_add(c);
        match at_or(&marks, x, marks::NONE).entries() {
            None if whole => self.page.say(words::NOT_REACHED),
            None => self
                .page
                .say_of(words::REACHED_LEFT_OUT, 0, product(s.na, s.nc), PAIRS),
            Some(0) => self.page.say(words::REACHED_AT_ONCE),
            Some(n) => {
                self.page.say(words::REACHED_BY_A_LIST);
                self.say_entries(&marks, x, n);
            }
        }
    }
}
