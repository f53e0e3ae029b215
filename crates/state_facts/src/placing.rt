// Bindings into their slots: the groups of a part's variables, whose cells are made. A part of initialisation or of correctness has the sizes of the abstract variables as `meeting`.
ghost use Rattle.std.specs.Prelude.{pos};
ghost use Rattle.slot_carriers.specs.CellGroups.{Others};
ghost use Rattle.state_facts.specs.Placings.{GroupAsked, GroupBound, StatesSized, StatesBound, PairBound, OthersFrom, ParametersSized, ParametersBound};

use crate::Pair;
use pages::Bindings;
use plans::GroupSize;
use points::slots;
use slot_carriers::groups::bind;
use slot_carriers::{CELLS, SLOTS};
use step_searches::StateSearch;

// The variables of a group, from a slot on, get the values of its k-th binding; where there is none, they keep those that they have.
fn bind_below(
    cells: &[u32; CELLS],
    base: usize,
    size: GroupSize,
    k: usize,
    slots: &mut [i64; SLOTS],
)
    requires { GroupAsked cells.now base size.variables size.bindings }
    ensures values { GroupBound cells.now base size.variables size.bindings k slots.new }
    ensures others { Others (pos 0) slots.old base size.variables slots.new }
{
    if size.bindings <= k {
        return;
    }
    bind(cells, base, size, k, slots)
}

// An abstract and a concrete state.
// Form 2: `put_parameters` is two such calls over other slots, sizes and numbers: one function for both would be handed all six of these.
pub fn bind_pair(s: &StateSearch<'_>, x: Pair, slots: &mut [i64; SLOTS])
    requires { StatesSized s.now.cells s.now.part }
    ensures values { PairBound s.now.cells s.now.part x.a x.c slots.new }
    ensures others { OthersFrom 16 slots.old slots.new }
{
    let p = s.part;
    bind_below(&s.cells, slots::ABSTRACT, p.meeting, x.a, slots);
    bind_below(&s.cells, slots::CONCRETE, p.concretes, x.c, slots);
}

// Both states, and the states after them.
pub fn put_states(s: &StateSearch<'_>, x: Bindings, slots: &mut [i64; SLOTS])
    requires { StatesSized s.now.cells s.now.part }
    ensures { StatesBound s.now.cells s.now.part x slots.old slots.new }
{
    let p = s.part;
    bind_pair(s, Pair { a: x.a, c: x.c }, slots);
    bind_below(&s.cells, slots::CONCRETE_PRIMED, p.concretes, x.k, slots);
    bind_below(&s.cells, slots::ABSTRACT_PRIMED, p.meeting, x.b, slots);
}

// The inputs and the outputs of an operation.
pub fn put_parameters(s: &StateSearch<'_>, x: Bindings, slots: &mut [i64; SLOTS])
    requires { ParametersSized s.now.cells s.now.part }
    ensures { ParametersBound s.now.cells s.now.part x slots.old slots.new }
{
    let p = s.part;
    bind_below(&s.cells, slots::INPUTS, p.inputs, x.i, slots);
    bind_below(&s.cells, slots::OUTPUTS, p.outputs, x.o, slots);
}
