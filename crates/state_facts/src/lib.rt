// Facts about a dossier by numbers of bindings, for a program that explains counterexamples: the values of the bindings that are shown. Numbers are those of the fixed order;
// one that is out of range is answered, never refused.
// Form 5: that a number is one of the abstract bindings is asked of five functions of `searches`, that it is one of the concrete bindings of three, by one short clause each: as a type it is
// a struct of the number and the search, made by a literal in three closures for the abstract ones and in two for the concrete ones, and `related_at`, which takes one of each, would
// ask that both are of the same search.
// `PartAsked`, of one function, as in `part_places`.
#![tactic(auto)]

pub mod conjuncts;
pub mod omissions;
pub mod placing;
pub mod searches;

ghost use Rattle.std.specs.Prelude.{◌≡◌, ◌+◌, ◌*◌, ◌<◌, ◌≤◌};
ghost use Rattle.part_places.specs.Places.{AllAsked, PartAsked, PartSet};
ghost use Rattle.state_facts.specs.Shown.{PartOf, Shown};

use pages::{Bindings, Counts};
use part_places::{OBLIGATIONS, part_cells};
use placing::{put_parameters, put_states};
use plans::{Conclusion, GroupSize, Part};
use search_groups::Dossier;
use slot_carriers::{CELLS, SLOTS};
use std::marker::Model;
use step_searches::{ReadDossier, StateSearch};

// An abstract state and a concrete one, by the numbers of their bindings.
#[derive(Clone, Copy)]
pub struct Pair {
    pub a: usize,
    pub c: usize,
}

// The sizes of a part that has no variables: what stands there before the cells are made.
const NO_GROUP: GroupSize = GroupSize {
    variables: 0,
    bindings: 0,
};

const NO_PART: Part = Part {
    abstracts: NO_GROUP,
    concretes: NO_GROUP,
    inputs: NO_GROUP,
    outputs: NO_GROUP,
    primes: NO_GROUP,
    readying: NO_GROUP,
    meeting: NO_GROUP,
    conclusion: Conclusion::OfState,
};

// The search among the states of the k-th part. It is made where it stands, and inlined: answered it is copied, and `explain` of a small dossier takes 1.1 to 1.2 times the instructions.
#[inline(always)]
fn state_search<'a>(d: &Dossier<'a>, k: usize) -> StateSearch<'a>
    requires { PartAsked d.now.table.now d.now.groups.now k }
    ensures dossier { result.dossier ≡ d.now }
    ensures cells { PartSet d.now.table.now d.now.groups.now k result.cells result.part }
{
    let mut s = StateSearch {
        dossier: *d,
        cells: [0; CELLS],
        part: NO_PART,
    };
    s.part = part_cells(d, k, &mut s.cells);
    s
}

// The part of the check that has the groups of both states.
const INITIALISATION: usize = 0;

// A search among both states, of some dossier: the part has their groups.
#[derive(Drop)]
struct PairSearch<'a> {
    search: StateSearch<'a>,
}

impl<'a> Model for PairSearch<'a> {
    ghost use Rattle.step_searches.specs.declared.StateSearch.{StateSearch};
    ghost use Rattle.state_facts.specs.Reads.{SearchAsked};

    ghost Value = { StateSearch };

    ghost view = { λ s. s.search };

    ghost invariant = { λ s. SearchAsked s.search.dossier.table.now s.search.dossier.rows.now s.search.dossier.firsts.now s.search.cells s.search.part };
}

// That of a dossier that was read.
#[inline(always)]
fn pair_search<'a>(d: &ReadDossier<'a>) -> PairSearch<'a>
    ensures dossier { result.dossier ≡ d.now }
    ensures cells { PartSet d.now.table.now d.now.groups.now 0 result.cells result.part }
{
    PairSearch {
        search: state_search(&d.arrays, INITIALISATION),
    }
}

// The part of the check that is the correctness of operation j: behind initialisation each operation has two, its applicability and its correctness.
// Form 1: parts are numbers in `part_places`, whose functions go through them by a `for`; which obligation a part is, `held_checks` says, and no one asks it here.
fn correctness_of(j: usize) -> usize
    requires { j < 16 }
    ensures { result ≡ 2 + 2 * j }
{
    OBLIGATIONS + OBLIGATIONS * j
}

// The part of the check that has all groups of an operation, which is its correctness; without an operation the first one, which has those of both states.
fn part_of(operations: usize, operation: usize) -> usize
    requires { operations ≤ 16 }
    ensures { PartOf operations operation result }
{
    if operation < operations {
        return correctness_of(operation);
    }
    INITIALISATION
}

// The slots get the values of the bindings with these numbers; a group whose number is out of range keeps its slots. Where the operation is none of the dossier's, it is the states alone.
pub fn show(d: &Dossier<'_>, operation: usize, x: Bindings, slots: &mut [i64; SLOTS]) -> Counts
    requires { AllAsked d.now.table.now d.now.groups.now d.now.operations }
    ensures { Shown d.now.table.now d.now.groups.now d.now.operations operation x slots.new result }
{
    let s = state_search(d, part_of(d.operations, operation));
    let p = s.part;
    put_states(&s, x, slots);
    put_parameters(&s, x, slots);
    Counts {
        va: p.meeting.variables,
        vc: p.concretes.variables,
        vi: p.inputs.variables,
        vo: p.outputs.variables,
    }
}
