// The parts of a check by their places: how many places each has, and all of them; the part of a place.
// Form 5: `PartAsked` is of the dossier and of the part's number k: a struct of both is a `Model` of some ten lines for three clauses, two here and one in `state_facts`, and would be made by
// a literal where each clause is shown now.
#![tactic(auto)]

ghost use Rattle.part_setup.specs.SetupPromises.{Blank};
ghost use Rattle.part_places.specs.Places.{PartAsked, PartSet, SizeIs, AllAsked, TotalIs, PlaceAsked, PlaceFound};

pub use held_checks::OBLIGATIONS;
use held_checks::{OPENING, Obligation, obligation_of};
use part_setup::{applicability, correctness, opening, places};
use plans::Part;
use search_groups::Dossier;
use slot_carriers::CELLS;

// A part, and a place in it.
#[derive(Clone, Copy)]
pub struct Found {
    pub part: usize,
    pub at: usize,
}

// The cells of the k-th part, and its sizes.
// Form 2: `parts::ready::set_part` is the same match, where each part gets its plan too: over this one it would match a second time for the plans.
// Form 5: the cells are lent blank, as to the three functions of `part_setup`.
pub fn part_cells(d: &Dossier<'_>, k: usize, cells: &mut [u32; CELLS]) -> Part
    requires part_asked { PartAsked d.now.table.now d.now.groups.now k }
    requires blank { Blank cells.old }
    ensures { PartSet d.now.table.now d.now.groups.now k cells.new result }
{
    match obligation_of(k) {
        Obligation::Initialisation => opening(d, cells),
        Obligation::Applicability(j) => applicability(d, j, cells),
        Obligation::Correctness(j) => correctness(d, j, cells),
    }
}

// How many places the k-th part has.
fn part_size(d: &Dossier<'_>, k: usize) -> usize
    requires { PartAsked d.now.table.now d.now.groups.now k }
    ensures { SizeIs d.now.table.now d.now.groups.now k result }
{
    let mut cells = [0u32; CELLS];
    let p = part_cells(d, k, &mut cells);
    places(&p)
}

// How many places all parts have.
// Form 3: by `map` and `sum` it would have to be shown of the list of all sizes what `part_size` asks of each k, that the sum fits and what it is, as by `product` in
// `slot_carriers::groups::binding_count`; here the loop goes on from the sum of the parts so far.
pub fn total(d: &Dossier<'_>) -> usize
    requires { AllAsked d.now.table.now d.now.groups.now d.now.operations }
    ensures { TotalIs d.now.table.now d.now.groups.now d.now.operations result }
{
    let parts = OPENING + OBLIGATIONS * d.operations;
    let mut all: usize = 0;
    for k in 0..parts {
        all += part_size(d, k);
    }
    all
}

// The part of a place, and its place there.
// Form 1: the place is one of the order (`PlaceAsked`), so that the number behind the last part is never answered; an Option would give three of the four calls (two in `checker`, one in
// `reports`) a case that cannot be.
pub fn find(d: &Dossier<'_>, place: usize) -> Found
    requires { PlaceAsked d.now.table.now d.now.groups.now d.now.operations place }
    ensures { PlaceFound d.now.table.now d.now.groups.now d.now.operations place result.part result.at }
{
    let parts = OPENING + OBLIGATIONS * d.operations;
    let mut at = place;
    for part in 0..parts {
        let size = part_size(d, part);
        if at < size {
            return Found { part, at };
        }
        at -= size;
    }
    Found { part: parts, at }
}
