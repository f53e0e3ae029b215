// What a part of the check starts from: the cells of its variables' carriers, the sizes of its groups, how many places they make, and every variable's first value in the slots.
// Form 5: cells are made here and then asked for sizes: what a function asks of them is what another has promised. `Sizes` as a public struct with a method for each part of an operation
// would have each caller join the promise of the sizes and that of the method, where it has one now.
#![tactic(auto)]

ghost use Rattle.std.specs.Prelude.{◌≡◌, ◌+◌, ◌*◌, ◌<◌, get_or};
ghost use Rattle.slot_carriers.specs.CellGroups.{Grouped};
ghost use Rattle.points.specs.Points.{primed_slot};
ghost use Rattle.part_tests.specs.NestStepsPartTests.{places};
ghost use Rattle.part_setup.specs.SetupPromises.{Blank, FirstValues, StatesAsked, StatesSet, OperationAsked, OperationSet, OpeningPartAsked, OpeningPartIs};
ghost use Rattle.part_setup.specs.SetupPromises.{OperationPartAsked, ApplicabilityPartIs, CorrectnessPartIs, FewPlaces, Filled};
ghost use Rattle.part_setup.specs.SetupSteps.{StatesReady, SizeAt, SizesAre};

use plans::{Conclusion, GroupSize, Part};
use points::slots;
use search_groups::Dossier;
use search_groups::groups::{INPUTS_ROW, OPERATION_ROWS, STATE_ROW, STATES_ROWS};
use slot_carriers::groups::binding_count;
use slot_carriers::setup::{copy_cells, set_cells};
use slot_carriers::{CELLS, SLOTS, value_at};

// Form 1: places and lengths among cells and groups, no kinds.
// Where the lists of functions begin among the cells.
const LISTS: usize = 256;

// The rows of both states.
const ABSTRACT_ROW: usize = 0;

const CONCRETE_ROW: usize = STATE_ROW;

// A group without variables: it has one binding, the empty one.
const NONE: GroupSize = GroupSize {
    variables: 0,
    bindings: 1,
};

// The sizes of the groups of an operation.
#[derive(Clone, Copy)]
struct Sizes {
    abstracts: GroupSize,
    concretes: GroupSize,
    inputs: GroupSize,
    outputs: GroupSize,
}

// The cells of both states, plain and primed; the place behind their lists.
fn set_states(d: &Dossier<'_>, cells: &mut [u32; CELLS]) -> usize
    requires states_asked { StatesAsked d.now.table.now d.now.groups.now }
    requires blank { Blank cells.old }
    ensures { StatesReady d.now.table.now d.now.groups.now cells.new result }
{
    let at = set_cells(
        d.table,
        d.groups,
        ABSTRACT_ROW,
        slots::ABSTRACT,
        LISTS,
        cells,
    );
    let end = set_cells(d.table, d.groups, CONCRETE_ROW, slots::CONCRETE, at, cells);
    copy_cells(
        usize::from(d.groups[ABSTRACT_ROW]),
        slots::ABSTRACT,
        slots::ABSTRACT_PRIMED,
        cells,
    );
    copy_cells(
        usize::from(d.groups[CONCRETE_ROW]),
        slots::CONCRETE,
        slots::CONCRETE_PRIMED,
        cells,
    );
    end
}

// Those of an operation whose rows begin at `row`.
fn operation_cells(d: &Dossier<'_>, row: usize, cells: &mut [u32; CELLS])
    requires operation_asked { OperationAsked d.now.table.now d.now.groups.now row }
    requires blank { Blank cells.old }
    ensures { OperationSet d.now.table.now d.now.groups.now row cells.new }
{
    let lists = set_states(d, cells);
    let more = set_cells(d.table, d.groups, row, slots::INPUTS, lists, cells);
    set_cells(
        d.table,
        d.groups,
        row + INPUTS_ROW,
        slots::OUTPUTS,
        more,
        cells,
    );
}

// How many variables a group has stands in its row; their cells begin at a slot.
fn group_size(d: &Dossier<'_>, row: usize, slot: usize, cells: &[u32; CELLS]) -> GroupSize
    requires row_low { row < 160 }
    requires grouped { Grouped cells.now slot (get_or d.now.groups.now row 0) }
    ensures { SizeAt d.now.groups.now row cells.now slot result }
{
    let variables = usize::from(d.groups[row]);
    let bindings = binding_count(cells, slot, variables);
    GroupSize {
        variables,
        bindings,
    }
}

// Initialisation goes over the concrete variables.
fn opening_part(d: &Dossier<'_>, cells: &[u32; CELLS]) -> Part
    requires { OpeningPartAsked d.now.groups.now cells.now }
    ensures { OpeningPartIs d.now.groups.now cells.now result }
{
    let abstracts = group_size(d, ABSTRACT_ROW, slots::ABSTRACT, cells);
    let concretes = group_size(d, CONCRETE_ROW, slots::CONCRETE, cells);
    Part {
        abstracts: NONE,
        concretes,
        inputs: NONE,
        outputs: NONE,
        primes: NONE,
        readying: NONE,
        meeting: abstracts,
        conclusion: Conclusion::OfState,
    }
}

// The groups of the operation whose rows begin at `row`.
fn group_sizes(d: &Dossier<'_>, row: usize, cells: &[u32; CELLS]) -> Sizes
    requires { OperationPartAsked d.now.groups.now row cells.now }
    ensures { SizesAre d.now.groups.now row cells.now result }
{
    let abstracts = group_size(d, ABSTRACT_ROW, slots::ABSTRACT, cells);
    let concretes = group_size(d, CONCRETE_ROW, slots::CONCRETE, cells);
    let inputs = group_size(d, row, slots::INPUTS, cells);
    let outputs = group_size(d, row + INPUTS_ROW, slots::OUTPUTS, cells);
    Sizes {
        abstracts,
        concretes,
        inputs,
        outputs,
    }
}

// Applicability over abstract, concrete, inputs.
fn applicability_part(d: &Dossier<'_>, row: usize, cells: &[u32; CELLS]) -> Part
    requires { OperationPartAsked d.now.groups.now row cells.now }
    ensures { ApplicabilityPartIs d.now.groups.now row cells.now result }
{
    let s = group_sizes(d, row, cells);
    Part {
        abstracts: s.abstracts,
        concretes: s.concretes,
        inputs: s.inputs,
        outputs: NONE,
        primes: NONE,
        readying: s.outputs.with(s.abstracts),
        meeting: s.outputs.with(s.concretes),
        conclusion: Conclusion::OfState,
    }
}

// Correctness over abstract, concrete, inputs, outputs, concrete primed.
fn correctness_part(d: &Dossier<'_>, row: usize, cells: &[u32; CELLS]) -> Part
    requires { OperationPartAsked d.now.groups.now row cells.now }
    ensures { CorrectnessPartIs d.now.groups.now row cells.now result }
{
    let s = group_sizes(d, row, cells);
    Part {
        abstracts: s.abstracts,
        concretes: s.concretes,
        inputs: s.inputs,
        outputs: s.outputs,
        primes: s.concretes,
        readying: s.outputs.with(s.abstracts),
        meeting: s.abstracts,
        conclusion: Conclusion::OfStep,
    }
}

// The part of initialisation: its cells in lent blank ones, and its sizes.
// Form 5: the cells are lent blank to all three. Made in here and given back beside the sizes, their 36,864 bytes are copied for each part: that was tried, and misses the bar, which is the
// time of the lent cells: `dossier` took 1.03 to 1.27 of it, the report of a small dossier 1.02 to 1.18.
pub fn opening(d: &Dossier<'_>, cells: &mut [u32; CELLS]) -> Part
    requires states_asked { StatesAsked d.now.table.now d.now.groups.now }
    requires blank { Blank cells.old }
    ensures cells_set { StatesSet d.now.table.now d.now.groups.now cells.new }
    ensures part_is { OpeningPartIs d.now.groups.now cells.new result }
{
    set_states(d, cells);
    opening_part(d, cells)
}

// That of operation j's applicability.
// Form 2: it and `correctness` differ in the one call whose promise is theirs: one function for both would take that call as a closure, with a clause that it may be called and its
// promise by `F.post`, for these three lines.
pub fn applicability(d: &Dossier<'_>, j: usize, cells: &mut [u32; CELLS]) -> Part
    requires operation_asked { OperationAsked d.now.table.now d.now.groups.now (18 + 8 * j) }
    requires blank { Blank cells.old }
    ensures cells_set { OperationSet d.now.table.now d.now.groups.now (18 + 8 * j) cells.new }
    ensures part_is { ApplicabilityPartIs d.now.groups.now (18 + 8 * j) cells.new result }
{
    let row = STATES_ROWS + OPERATION_ROWS * j;
    operation_cells(d, row, cells);
    applicability_part(d, row, cells)
}

// That of its correctness.
pub fn correctness(d: &Dossier<'_>, j: usize, cells: &mut [u32; CELLS]) -> Part
    requires operation_asked { OperationAsked d.now.table.now d.now.groups.now (18 + 8 * j) }
    requires blank { Blank cells.old }
    ensures cells_set { OperationSet d.now.table.now d.now.groups.now (18 + 8 * j) cells.new }
    ensures part_is { CorrectnessPartIs d.now.groups.now (18 + 8 * j) cells.new result }
{
    let row = STATES_ROWS + OPERATION_ROWS * j;
    operation_cells(d, row, cells);
    correctness_part(d, row, cells)
}

// How many places a part has: the bindings of its groups, one of each.
pub fn places(p: &Part) -> usize
    requires { FewPlaces p.now }
    ensures { result ≡ places p.now }
{
    p.abstracts.bindings
        * p.concretes.bindings
        * p.inputs.bindings
        * p.outputs.bindings
        * p.primes.bindings
}

// The primed slot of a variable.
fn primed_slot(s: usize) -> usize
    requires { s < 16 }
    ensures { (result ≡ primed_slot s) × (result < 38) }
{
    if s < slots::CONCRETE {
        return s + slots::ABSTRACT_PRIMED;
    }
    s + slots::CONCRETE_PRIMED - slots::CONCRETE
}

// Every variable has its first value; the primed ones under the plain slots in the second array.
pub fn first_values(cells: &[u32; CELLS]) -> [[i64; SLOTS]; 2]
    requires { FirstValues cells.now }
    ensures { Filled cells.now result }
{
    let mut arrays = [[0i64; SLOTS]; 2];
    // Form 3: after an adapter of `iter_mut` (`enumerate`, `zip`) nothing is known of what was written.
    for s in 0..slots::COUNT {
        arrays[slots::BEFORE][s] = value_at(cells, s, 0);
    }
    // Form 3: as above.
    for s in 0..slots::INPUTS {
        arrays[slots::AFTER][s] = value_at(cells, primed_slot(s), 0);
    }
    arrays
}
