// Parts of a check made ready for their searches: what is made of a dossier for them.
// Form 5: `LookAsked` is of the dossier and of the part's number k: a struct of both is a `Model` of some ten lines, and `set_part` would still show k for each obligation.
// That the cells are blank is asked of the four functions that make a part ready: it holds before the call and not behind it, so that it is no invariant of `PartArrays`; `blank` makes them so.
ghost use Rattle.std.specs.Prelude.{◌≡◌, ◌+◌, ◌*◌};
ghost use Rattle.part_setup.specs.SetupPromises.{Blank};
ghost use Rattle.parts.specs.SearchPromises.{LookAsked, OpeningReady, ApplicabilityReady, CorrectnessReady, PartReady};

use form::node::NUMBERS;
use held_checks::{Obligation, obligation_of};
use part_setup::{applicability, correctness, opening};
use plans::{PLAN, Part, PartSearch, plan_applicability, plan_correctness, plan_initialisation};
use search_groups::Dossier;
use slot_carriers::CELLS;

// The arrays that a part is made ready in: the cells of its variables, and the plans. They are lent: answered with the part's sizes they would be copied, and `dossier` takes 1.03 to 1.27 of the
// time, `explain` of a small dossier 1.2 to 1.3 times the instructions.
#[derive(Drop)]
pub struct PartArrays {
    pub cells: [u32; CELLS],
    pub plan: [u16; PLAN],
}

impl PartArrays {
    // Before a part is made ready in them.
    #[inline(always)]
    pub fn blank() -> PartArrays
        ensures { Blank result.cells }
    {
        PartArrays {
            cells: [0; CELLS],
            plan: [0; PLAN],
        }
    }

    // With the dossier's table and the part's sizes, what the searches are lent.
    pub fn search<'a>(&'a self, table: &'a [u16; NUMBERS], part: Part) -> PartSearch<'a>
        ensures table { result.table.now ≡ table.now }
        ensures plan { result.plan.now ≡ self.now.plan }
        ensures cells { result.cells.now ≡ self.now.cells }
        ensures part { result.part ≡ part }
    {
        PartSearch {
            table,
            plan: &self.plan,
            cells: &self.cells,
            part,
        }
    }
}

// Initialisation.
pub fn ready_opening(d: &Dossier<'_>, a: &mut PartArrays) -> Part
    requires look_asked { LookAsked d.now.table.now d.now.rows.now d.now.firsts.now d.now.groups.now 0 }
    requires blank { Blank a.old.cells }
    ensures { OpeningReady d.now.table.now d.now.rows.now d.now.firsts.now d.now.groups.now a.new.plan a.new.cells result }
{
    let part = opening(d, &mut a.cells);
    plan_initialisation(d, &mut a.plan);
    part
}

// Applicability of operation j.
// Form 2: it and correctness differ in their sizes, their plans and what both promise: one function over both would be handed each of these, and be no shorter.
fn set_applicability(d: &Dossier<'_>, j: usize, a: &mut PartArrays) -> Part
    requires look_asked { LookAsked d.now.table.now d.now.rows.now d.now.firsts.now d.now.groups.now (1 + 2 * j) }
    requires blank { Blank a.old.cells }
    ensures { ApplicabilityReady d.now.table.now d.now.rows.now d.now.firsts.now d.now.groups.now j a.new.plan a.new.cells result }
{
    let part = applicability(d, j, &mut a.cells);
    plan_applicability(
        d,
        j,
        part.readying.variables - part.abstracts.variables,
        &mut a.plan,
    );
    part
}

// Correctness of operation j.
pub fn ready_correctness(d: &Dossier<'_>, j: usize, a: &mut PartArrays) -> Part
    requires look_asked { LookAsked d.now.table.now d.now.rows.now d.now.firsts.now d.now.groups.now (2 + 2 * j) }
    requires blank { Blank a.old.cells }
    ensures { CorrectnessReady d.now.table.now d.now.rows.now d.now.firsts.now d.now.groups.now j a.new.plan a.new.cells result }
{
    let part = correctness(d, j, &mut a.cells);
    plan_correctness(d, j, part.outputs.variables, &mut a.plan);
    part
}

// The k-th part.
// Form 2: `part_places::part_cells` is the same match without the plans; over it this would match a second time for them.
pub(crate) fn set_part(d: &Dossier<'_>, k: usize, a: &mut PartArrays) -> Part
    requires look_asked { LookAsked d.now.table.now d.now.rows.now d.now.firsts.now d.now.groups.now k }
    requires blank { Blank a.old.cells }
    ensures { PartReady d.now.table.now d.now.rows.now d.now.firsts.now d.now.groups.now k a.new.plan a.new.cells result }
{
    match obligation_of(k) {
        Obligation::Initialisation => ready_opening(d, a),
        Obligation::Applicability(j) => set_applicability(d, j, a),
        Obligation::Correctness(j) => ready_correctness(d, j, a),
    }
}
