// What is explained of a text: the items of a page, from facts that are proved, and the page written in words.
#![tactic(auto)]

ghost use Rattle.std.specs.Prelude.{◌≤◌, length};

use crate::dossiers::Explanation;
use held_checks::{Obligation, obligation_of};
use labels::{LABELS, Names};
use pages::{Counts, Page};
use part_places::{Found, find, total};
use parts::search;
use phrases::{SLOTS, Source, put_phrase};
use refusal_pages::say_refusal;
use refusals::Fault;
use sheets::Sheet;
use state_facts::show;
use step_searches::ReadDossier;
use text_readings::Arrays;

mod accepted;
mod always;
mod bounds;
mod dossiers;
mod items;
mod reached;
mod refuted;

// The place at which the search over all of them fails, if there is one.
fn failing(d: &ReadDossier<'_>) -> Option<Found> {
    let all = total(&d.arrays);
    let place = search(&d.arrays, 0, all)?;
    Some(find(&d.arrays, place))
}

impl Explanation<'_, '_> {
    fn say_refuted(&mut self, f: Found) {
        match obligation_of(f.part) {
            Obligation::Initialisation => self.say_initialisation(f.at),
            Obligation::Applicability(j) => self.say_applicability(j, f.at),
            Obligation::Correctness(j) => self.say_correctness(j, f.at),
        }
    }

    // The verdict, and what is behind it.
    fn say_verdict(&mut self) {
        match failing(&self.dossier) {
            Some(f) => self.say_refuted(f),
            None => self.say_accepted(),
        }
    }

    // All that is said of a dossier.
    fn say_all(&mut self) {
        self.say_verdict();
        if 0 < self.dossier.arrays.operations {
            self.say_omissions();
            self.say_preconditions();
        }
    }

    // The explanation of a dossier that is read.
    fn explain(&mut self, labels: &[u16; LABELS]) -> Sheet {
        self.say_all();
        let mut sheet = Sheet::new();
        for e in self.page.items() {
            let mut slots = [0i64; SLOTS];
            let counts = show(&self.dossier.arrays, e.operation, e.bindings, &mut slots);
            let s = Source {
                names: Names {
                    text: self.text,
                    labels,
                },
                slots: &slots,
                counts,
            };
            put_phrase(e, &s, &mut sheet);
        }
        sheet
    }
}

// The explanation of a refused text: it speaks of no bindings.
// Form 2: four lines around the items of the page are those of `Explanation::explain`; one function for them would take the page, the names and the values of an item, as a closure
// with its requirement (`F.pre`), and be longer than what it spares.
fn explain_refusal(text: &[u8], labels: &[u16; LABELS], f: Fault) -> Sheet {
    let mut page = Page::new();
    say_refusal(text, f, &mut page);
    let mut sheet = Sheet::new();
    let s = Source {
        names: Names { text, labels },
        slots: &[0; SLOTS],
        counts: Counts::default(),
    };
    for e in page.items() {
        put_phrase(e, &s, &mut sheet);
    }
    sheet
}

// The explanation of a text on a sheet.
pub fn explain(text: &[u8]) -> Sheet
    ensures { length result.text ≤ 65536 }
{
    let mut a = Arrays::new();
    let answer = a.read(text);
    match answer {
        Err(f) => explain_refusal(text, &a.labels, f),
        Ok(operations) => {
            let arrays = a.dossier(operations);
            let dossier = ReadDossier { arrays };
            let mut e = Explanation {
                text,
                dossier,
                page: Page::new(),
            };
            e.explain(&a.labels)
        }
    }
}
