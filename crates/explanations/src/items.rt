// What is found of a dossier by the numbers of bindings.
use crate::dossiers::Explanation;
use conjunct_texts::bytes_of;
use pages::{Bindings, Counts};
use phrases::SLOTS;
use search_groups::columns::END;
use state_facts::show;
use text_places::Span;

// An abstract and a concrete state.
pub fn states(a: usize, c: usize) -> Bindings {
    Bindings {
        a,
        c,
        ..Bindings::default()
    }
}

impl Explanation<'_, '_> {
    // The bytes of the conjunct whose row begins there, if it has some.
    pub fn conjunct_at(&self, row: Option<usize>) -> Option<Span> {
        let rows = self.dossier.arrays.rows;
        let ends = rows.get(row?..)?;
        let from = ends.first().copied()?;
        let end = ends.get(END).copied()?;
        bytes_of(self.text, usize::from(from), usize::from(end))
    }

    // How many variables the groups of an operation have.
    pub fn counts_of(&self, j: usize) -> Counts {
        let mut values = [0i64; SLOTS];
        show(&self.dossier.arrays, j, Bindings::default(), &mut values)
    }
}
