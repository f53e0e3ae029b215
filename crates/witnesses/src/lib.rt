// The binding at a place of a part, a line for each variable.
// Form 1: the constant is a length, no kind.
#![tactic(auto)]

ghost use Rattle.std.specs.Prelude.{◌≡◌, ◌+◌, ◌-◌, ◌*◌, ◌/◌, ◌≤◌, length};
ghost use Rattle.pieces.specs.PiecePromises.{Adds};
ghost use Rattle.witnesses.specs.WitnessPromises.{WitnessAsked, AddsWitness};
ghost use Rattle.witnesses.specs.WitnessSteps.{BindAsked, BoundAt, LinesAsked, part_piece};

use held_checks::{Obligation, obligation_of};
use labels::Names;
use lines::{Group, Shown, Side, put_group};
use part_places::{Found, part_cells};
use pieces::Writer;
use plans::Part;
use points::slots;
use search_groups::Dossier;
use search_groups::groups::OPERATION_ROWS;
use slot_carriers::groups::bind;
use slot_carriers::{CELLS, SLOTS};

// The greatest length of a witness: 30 lines.
pub const WITNESS: usize = 19350;

// The binding at a place, by its digits.
fn bind_place(cells: &[u32; CELLS], p: Part, at: usize) -> [i64; SLOTS]
    requires { BindAsked cells.now p at }
    ensures { BoundAt cells.now p at result }
{
    let mut values = [0i64; SLOTS];
    let o = at / p.primes.bindings;
    let i = o / p.outputs.bindings;
    let c = i / p.inputs.bindings;
    bind(
        cells,
        slots::ABSTRACT,
        p.abstracts,
        c / p.concretes.bindings,
        &mut values,
    );
    bind(
        cells,
        slots::CONCRETE,
        p.concretes,
        c % p.concretes.bindings,
        &mut values,
    );
    bind(
        cells,
        slots::INPUTS,
        p.inputs,
        i % p.inputs.bindings,
        &mut values,
    );
    bind(
        cells,
        slots::OUTPUTS,
        p.outputs,
        o % p.outputs.bindings,
        &mut values,
    );
    bind(
        cells,
        slots::CONCRETE_PRIMED,
        p.primes,
        at % p.primes.bindings,
        &mut values,
    );
    values
}

// The lines of all groups of a part; `row` is how far its operation's rows are from the first operation's. A group without variables leaves no line.
// Form 3: a loop over the five pairs of a side and a size would ask of each turn what is written so far, the pieces in front by cases over its number, where here each call adds its own.
fn put_groups(s: &Shown<'_>, p: Part, row: usize, w: &mut Writer<'_>)
    requires at_in_bounds { w.old.at + 19350 ≤ length w.old.out.now }
    requires lines_asked { LinesAsked p row }
    ensures lines { Adds (part_piece s.now.names.text.now s.now.names.labels.now p row s.now.slots.now) w.old w.new }
    ensures short { w.new.at ≤ w.old.at + 19350 }
{
    let abstracts = Group::of(Side::Abstract, row, p.abstracts.variables);
    put_group(s, abstracts, w);
    let concretes = Group::of(Side::Concrete, row, p.concretes.variables);
    put_group(s, concretes, w);
    let inputs = Group::of(Side::Inputs, row, p.inputs.variables);
    put_group(s, inputs, w);
    let outputs = Group::of(Side::Outputs, row, p.outputs.variables);
    put_group(s, outputs, w);
    let primes = Group::of(Side::ConcretePrimed, row, p.primes.variables);
    put_group(s, primes, w);
}

// How far the rows of the k-th part's operation are from the first operation's.
fn operation_row(k: usize) -> usize
    requires { k ≤ 32 }
    ensures { (result ≡ 8 * ((k - 1) / 2)) × (result ≤ 120) }
{
    match obligation_of(k) {
        Obligation::Initialisation => 0,
        Obligation::Applicability(j) | Obligation::Correctness(j) => OPERATION_ROWS * j,
    }
}

// The witness at a place of a part.
pub fn put_witness(names: &Names<'_>, d: &Dossier<'_>, f: Found, w: &mut Writer<'_>)
    requires at_in_bounds { w.old.at + 19350 ≤ length w.old.out.now }
    requires witness_asked { WitnessAsked d.now.table.now d.now.groups.now f.part f.at }
    ensures { AddsWitness names.now.text.now names.now.labels.now d.now.table.now d.now.groups.now f.part f.at w.old w.new }
{
    let mut cells = [0u32; CELLS];
    let p = part_cells(d, f.part, &mut cells);
    let values = bind_place(&cells, p, f.at);
    let shown = Shown {
        names: *names,
        slots: &values,
    };
    put_groups(&shown, p, operation_row(f.part), w);
}
