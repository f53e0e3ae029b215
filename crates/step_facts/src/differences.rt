// States and inputs at which one machine can step and the other cannot.
ghost use Rattle.std.specs.Prelude.{true, false, ◌<◌, ◌≤◌};
ghost use Rattle.memo.specs.MemoPromises.{Memo};
ghost use Rattle.step_searches.specs.StepPromises.{First};
ghost use Rattle.step_facts.specs.Machines.{is_abstract};
ghost use Rattle.step_facts.specs.FactPromises.{MasksAre, more, FirstMore, PlaceFrom, PlaceAmong, PlaceIs};

use crate::bits::{MOST_STATES, Machine, bits, fill_masks};
use step_searches::{
    PartArrays, ReadDossier, StepSearch, next_abstract_state, next_related_state, prepare,
};

// An abstract state, a concrete one and inputs.
#[derive(Clone, Copy)]
pub struct Place {
    pub a: usize,
    pub c: usize,
    pub i: usize,
}

// The first bit of s that is none of m.
fn first_more(s: u64, m: u64, n: usize) -> Option<usize>
    requires { n ≤ 64 }
    ensures { First (more s m) 0 n result }
{
    (0..n).find(
        |&i|
            requires { i < 64 }
        { (m >> i) % 2 < (s >> i) % 2 },
    )
}

// The first input with which the machine can step and the other cannot; s are the bits of the abstract one.
fn first_difference(machine: Machine, s: u64, m: u64, n: usize) -> Option<usize>
    requires { n ≤ 64 }
    ensures { FirstMore (is_abstract machine) s m n result }
{
    match machine {
        Machine::Abstract => first_more(s, m, n),
        Machine::Concrete => first_more(m, s, n),
    }
}

// The first concrete state related to the abstract state a, and the first inputs, where the machine can step and the other cannot.
fn place_from(
    s: &StepSearch<'_>,
    machine: Machine,
    a: usize,
    masks: &[u64; MOST_STATES],
    memo: &mut [u64; memo::NUMBERS],
) -> Option<Place>
    requires a_lt_na { a < s.now.part.abstracts.bindings }
    requires memo { Memo s.now.table.now memo.old }
    requires masks_are { MasksAre s.now.table.now s.now.plan.now s.now.cells.now s.now.part s.now.part.concretes.bindings masks.now }
    ensures found { PlaceFrom s.now.table.now s.now.plan.now s.now.cells.now s.now.part (is_abstract machine) a result }
    ensures remembers { Memo s.now.table.now memo.new }
{
    let p = s.search.part;
    let m = bits(s, Machine::Abstract, a, memo);
    let mut next = next_related_state(s, a, 0, memo);
    while let Some(c) = next {
        if let Some(i) = first_difference(machine, m, masks[c], p.inputs.bindings) {
            return Some(Place { a, c, i });
        }
        next = next_related_state(s, a, c + 1, memo);
    }
    None
}

// The first abstract state, concrete state and inputs where they do.
fn place_among(
    s: &StepSearch<'_>,
    machine: Machine,
    masks: &[u64; MOST_STATES],
    memo: &mut [u64; memo::NUMBERS],
) -> Option<Place>
    requires memo { Memo s.now.table.now memo.old }
    requires masks_are { MasksAre s.now.table.now s.now.plan.now s.now.cells.now s.now.part s.now.part.concretes.bindings masks.now }
    ensures found { PlaceAmong s.now.table.now s.now.plan.now s.now.cells.now s.now.part (is_abstract machine) result }
    ensures remembers { Memo s.now.table.now memo.new }
{
    let _ = &s.search;
    let mut next = next_abstract_state(s, 0, memo);
    while let Some(a) = next {
        if let Some(x) = place_from(s, machine, a, masks, memo) {
            return Some(x);
        }
        next = next_abstract_state(s, a + 1, memo);
    }
    None
}

// The same for operation j of the arrays.
fn differing(d: &ReadDossier<'_>, j: usize, machine: Machine) -> Option<Place>
    ensures { PlaceIs d.now.table.now d.now.rows.now d.now.firsts.now d.now.groups.now d.now.operations j (is_abstract machine) result }
{
    if d.arrays.operations <= j {
        return None;
    }
    let mut made = PartArrays::blank();
    let ready = prepare(&d.arrays, j, &mut made);
    let s = StepSearch {
        search: made.search(d.arrays.table, ready),
    };
    let mut memo = [0u64; memo::NUMBERS];
    let mut masks = [0u64; MOST_STATES];
    fill_masks(&s, &mut masks, &mut memo);
    place_among(&s, machine, &masks, &mut memo)
}

// The first abstract state, concrete state related to it, and inputs with which the abstract side of operation j can step and the concrete side cannot; none where there is none.
pub fn narrowed(d: &ReadDossier<'_>, j: usize) -> Option<Place>
    ensures { PlaceIs d.now.table.now d.now.rows.now d.now.firsts.now d.now.groups.now d.now.operations j true result }
{
    differing(d, j, Machine::Abstract)
}

// Those with which the concrete side can step and the abstract side cannot.
pub fn widened(d: &ReadDossier<'_>, j: usize) -> Option<Place>
    ensures { PlaceIs d.now.table.now d.now.rows.now d.now.firsts.now d.now.groups.now d.now.operations j false result }
{
    differing(d, j, Machine::Concrete)
}
