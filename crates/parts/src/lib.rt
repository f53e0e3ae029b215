// The parts of a check one after the other, initialisation, then for each operation applicability and correctness: the search from one place up to another.
// Form 5: that `from ≤ end` stands in three contracts here and in that of `nest::sweep`. A struct of both with that as its invariant is seven lines for the four clauses, and its order has to
// be shown at each of the four literals that make one (three for `search`, in the crates above, and one for `look`), where the clause is shown at each of these four calls now, and at that of `sweep`.
#![tactic(auto)]

ghost use Rattle.std.specs.Prelude.{◌^◌, ◌<◌, ◌≤◌};
ghost use Rattle.parts.specs.SearchPromises.{PartAsked, PartAnswers, LookAsked, LookAnswers, SearchAsked, SearchAnswers, SearchStops};

use crate::ready::set_part;
use held_checks::{OBLIGATIONS, OPENING};
use nest::sweep;
use part_setup::{first_values, places};
use plans::{PLAN, PartSearch};
pub use ready::{PartArrays, ready_correctness, ready_opening};
use search_groups::Dossier;
use slot_carriers::CELLS;

mod ready;

// What a search of one part came to: how many places the part has, and the first that fails, counted from where the part begins.
#[derive(Clone, Copy)]
pub struct PartLooked {
    pub size: usize,
    pub failing: Option<usize>,
}

// What a search of the parts came to: the place at which it stopped, and that place again where it fails.
#[derive(Clone, Copy)]
pub struct Stopped {
    pub at: usize,
    pub failing: Option<usize>,
}

// The places of a part from `from` up to `end`, or to its last.
fn sweep_part(s: &PartSearch<'_>, from: usize, end: usize) -> PartLooked
    requires from_le_end { from ≤ end }
    requires part_asked { PartAsked s.now.table.now s.now.plan.now s.now.cells.now s.now.part }
    ensures { PartAnswers s.now.table.now s.now.plan.now s.now.cells.now s.now.part from end result.size result.failing }
{
    let size = places(&s.part);
    if size <= from {
        return PartLooked {
            size,
            failing: None,
        };
    }
    let mut arrays = first_values(s.cells);
    let failing = sweep(s, from, end.min(size), &mut arrays);
    PartLooked { size, failing }
}

// The places of the k-th part from `from` up to `end`, or to its last.
fn look(d: &Dossier<'_>, k: usize, from: usize, end: usize) -> PartLooked
    requires from_le_end { from ≤ end }
    requires look_asked { LookAsked d.now.table.now d.now.rows.now d.now.firsts.now d.now.groups.now k }
    ensures { LookAnswers d.now.table.now d.now.rows.now d.now.firsts.now d.now.groups.now k from end result.size result.failing }
{
    let mut a = PartArrays {
        cells: [0; CELLS],
        plan: [0; PLAN],
    };
    let part = set_part(d, k, &mut a);
    let s = PartSearch {
        table: d.table,
        plan: &a.plan,
        cells: &a.cells,
        part,
    };
    sweep_part(&s, from, end)
}

// The parts one after the other, from the place `from` up to `end`, or to the last of the check: the first place that fails.
pub fn search(d: &Dossier<'_>, from: usize, end: usize) -> Option<usize>
    requires from_le_end { (from ≤ end) × (end < 2 ^ 62) }
    requires search_asked { SearchAsked d.now.table.now d.now.rows.now d.now.firsts.now d.now.groups.now d.now.operations from }
    ensures { SearchAnswers d.now.table.now d.now.rows.now d.now.firsts.now d.now.groups.now d.now.operations from end result }
{
    search_on(d, from, end).failing
}

// The same, and where it stopped: how many places it looked at is told where none of them fails, too.
pub fn search_on(d: &Dossier<'_>, from: usize, end: usize) -> Stopped
    requires from_le_end { (from ≤ end) × (end < 2 ^ 62) }
    requires search_asked { SearchAsked d.now.table.now d.now.rows.now d.now.firsts.now d.now.groups.now d.now.operations from }
    ensures answers { SearchAnswers d.now.table.now d.now.rows.now d.now.firsts.now d.now.groups.now d.now.operations from end result.failing }
    ensures stops { SearchStops d.now.table.now d.now.rows.now d.now.firsts.now d.now.groups.now d.now.operations from end result.at result.failing }
{
    let parts = OPENING + OBLIGATIONS * d.operations;
    let mut at = from;
    let mut begin: usize = 0;
    for k in 0..parts {
        if at == end {
            return Stopped { at, failing: None };
        }
        let w = look(d, k, at - begin, end - begin);
        if let Some(place) = w.failing {
            let at = begin + place;
            return Stopped {
                at,
                failing: Some(at),
            };
        }
        begin += w.size;
        at = at.max(end.min(begin));
    }
    Stopped { at, failing: None }
}
