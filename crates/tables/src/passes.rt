// The whole table, in the order of the text: where values are found, the carriers, then each predicate with the names in its reach.
ghost use Rattle.std.specs.Prelude.{◌≡◌, ◌+◌, ◌-◌, ◌≤◌, ◌<◌, get_or};
ghost use Rattle.node_spans.specs.Spans.{span};
ghost use Rattle.node_spans.specs.StateSpans.{state_first};
ghost use Rattle.table_places.specs.TablePromises.{TableRoom, PredicateSet, StateSet, StatesSet, ConditionsSet, SideSet, OperationSet, OperationsSet, ContextsSet, TableSet, TableWritten};

use declared_names::declared::{hide, show};
use form::name_endings::{PLAIN, PRIMED};
use form::node;
use lowering::Reading;
use lowering::walk::pred;
use names::{NAMES, SIZES};
use node_spans::span::State;
use node_spans::{OperationSpans, Parts, span};
use parser::sections::{Bounds, States, between};
use table_nodes::slots;
use table_places::declared_types::{Declarations, set_declared};
use table_places::places::{place_all, place_parameters};
use type_rules::entries::{FREE, Kind, USED};
use type_rules::kinds::{look, put};

// What is read: where the parts of a dossier stand among its nodes, how many elements its given sets have, and the variables of both states, which stand among
// the nodes too.
#[derive(Clone, Copy)]
struct Source<'a, 'b> {
    parts: Parts<'a>,
    sizes: &'b [u16],
    states: States<'a>,
    ghost few: { parts.operations ≤ 16 },
}

// A predicate that ends at a place.
fn set_predicate(
    s: &Source<'_, '_>,
    end: usize,
    names: &mut [Kind],
    places: &mut [u16],
    out: &mut [u16],
)
    requires { TableRoom s.now.parts.nodes.now out.old }
    ensures { PredicateSet s.now.parts.nodes.now end names.old names.new places.old places.new s.now.sizes.now out.old out.new }
{
    if s.parts.nodes.len() < end {
        return;
    }
    let reading = Reading {
        code: s.parts.nodes,
        sizes: s.sizes,
    };
    let _ = pred(&reading, end, slots::BOUND, names, places, out);
}

// A state: its variables are in use behind it.
fn set_state(
    s: &Source<'_, '_>,
    state: State,
    names: &mut [Kind],
    places: &mut [u16],
    out: &mut [u16],
)
    requires { TableRoom s.now.parts.nodes.now out.old }
    ensures { StateSet s.now.parts.nodes.now (span s.now.parts.spans.now (state_first state)) (span s.now.parts.spans.now (state_first state + 1)) (span s.now.parts.spans.now (state_first state + 2)) names.old names.new places.old places.new s.now.sizes.now out.old out.new }
{
    let end = s.parts.span(state.first() + span::STATE_END);
    let variables = s.parts.variables(state);
    show(variables, PLAIN, names);
    set_predicate(s, end, names, places, out);
    hide(variables, PLAIN, USED, names);
}

// The two states.
fn set_states(s: &Source<'_, '_>, names: &mut [Kind], places: &mut [u16], out: &mut [u16])
    requires { TableRoom s.now.parts.nodes.now out.old }
    ensures { StatesSet s.now.parts.nodes.now s.now.parts.spans.now names.old names.new places.old places.new s.now.sizes.now out.old out.new }
{
    set_state(s, State::Abstract, names, places, out);
    set_state(s, State::Concrete, names, places, out);
}

// ainit, cinit, retrieve.
// Form 2: `conditions` of names makes the same six calls of `show` and `hide` around another pass; one function for both would take that pass as a closure, as at `set_side`.
fn set_conditions(s: &Source<'_, '_>, names: &mut [Kind], places: &mut [u16], out: &mut [u16])
    requires { TableRoom s.now.parts.nodes.now out.old }
    ensures { ConditionsSet s.now.parts.nodes.now s.now.states.abstracts.now s.now.states.concretes.now (span s.now.parts.spans.now 6) (span s.now.parts.spans.now 7) (span s.now.parts.spans.now 8) names.old names.new places.old places.new s.now.sizes.now out.old out.new }
{
    show(s.states.abstracts, PLAIN, names);
    set_predicate(s, s.parts.span(span::AINIT_END), names, places, out);
    hide(s.states.abstracts, PLAIN, USED, names);
    show(s.states.concretes, PLAIN, names);
    set_predicate(s, s.parts.span(span::CINIT_END), names, places, out);
    show(s.states.abstracts, PLAIN, names);
    set_predicate(s, s.parts.span(span::RETRIEVE_END), names, places, out);
    hide(s.states.abstracts, PLAIN, USED, names);
    hide(s.states.concretes, PLAIN, USED, names);
}

// A predicate of an operation, with the variables of its state, plain and primed.
// Form 2: `side` of `names` makes the same four calls around another pass; one function for both would take that pass as a closure, which here would write
// places and table, and what a closure has written is known to no law once it is gone (as at `states::all_hold`).
fn set_side(
    s: &Source<'_, '_>,
    end: usize,
    variables: &[u16],
    names: &mut [Kind],
    places: &mut [u16],
    out: &mut [u16],
)
    requires { TableRoom s.now.parts.nodes.now out.old }
    ensures { SideSet s.now.parts.nodes.now variables.now end names.old names.new places.old places.new s.now.sizes.now out.old out.new }
{
    show(variables, PLAIN, names);
    show(variables, PRIMED, names);
    set_predicate(s, end, names, places, out);
    hide(variables, PLAIN, USED, names);
    hide(variables, PRIMED, FREE, names);
}

// The name in the heading in front of a place: no place of an operation stands before its heading, where the difference would stop at 0.
fn title_at(nodes: &[u16], first: usize) -> usize
    ensures { (4 ≤ first → result ≡ get_or nodes.now (first - 4 + 1) 0) × (result < 65536) }
{
    usize::from(look(nodes, first.saturating_sub(node::SIZE) + node::A))
}

// An operation, with the variables of both states.
fn set_operation(
    s: &Source<'_, '_>,
    o: &OperationSpans,
    names: &mut [Kind],
    places: &mut [u16],
    out: &mut [u16],
)
    requires { TableRoom s.now.parts.nodes.now out.old }
    ensures { OperationSet s.now.parts.nodes.now s.now.states.abstracts.now s.now.states.concretes.now o.now.first o.now.last o.now.middle o.now.end names.old names.new places.old places.new s.now.sizes.now out.old out.new }
{
    put(names, title_at(s.parts.nodes, o.first), USED);
    let parameters = s.parts.parameters(o);
    show(parameters, PLAIN, names);
    place_parameters(parameters, places);
    set_side(s, o.middle, s.states.abstracts, names, places, out);
    set_side(s, o.end, s.states.concretes, names, places, out);
    hide(parameters, PLAIN, FREE, names);
}

fn set_operations(s: &Source<'_, '_>, names: &mut [Kind], places: &mut [u16], out: &mut [u16])
    requires { TableRoom s.now.parts.nodes.now out.old }
    ensures { OperationsSet s.now.parts.nodes.now s.now.parts.spans.now s.now.states.abstracts.now s.now.states.concretes.now s.now.parts.operations names.old places.old s.now.sizes.now out.old out.new }
{
    for k in 0..s.parts.operations {
        let o = s.parts.operation(k);
        set_operation(s, &o, names, places, out);
    }
}

// All predicates, each with the names in its reach.
fn set_contexts(s: &Source<'_, '_>, names: &mut [Kind], places: &mut [u16], out: &mut [u16])
    requires { TableRoom s.now.parts.nodes.now out.old }
    ensures { ContextsSet s.now.parts.nodes.now s.now.parts.spans.now s.now.states.abstracts.now s.now.states.concretes.now s.now.parts.operations names.old places.old s.now.sizes.now out.old out.new }
{
    set_states(s, names, places, out);
    set_conditions(s, names, places, out);
    set_operations(s, names, places, out);
}

fn set_table(
    p: &Parts<'_>,
    at: &Bounds,
    names: &mut [Kind],
    places: &mut [u16],
    sizes: &[u16],
    out: &mut [u16],
)
    requires { TableRoom p.now.nodes.now out.old }
    ensures { TableSet p.now.nodes.now p.now.spans.now p.now.operations at.now.givens at.now.abstracts names.old places.old sizes.now out.old out.new }
{
    // as many operations as there are spans for
    let parts = Parts {
        nodes: p.nodes,
        spans: p.spans,
        operations: p.operations.min(span::MOST),
    };
    let gs = between(p.nodes, at.givens, at.abstracts);
    let states = p.states();
    place_all(gs, states.abstracts, states.concretes, places);
    let spans = p.spans;
    let declared = Declarations {
        nodes: p.nodes,
        spans,
        operations: parts.operations,
        names,
        sizes,
    };
    set_declared(&declared, out);
    let source = Source {
        parts,
        sizes,
        states,
    };
    set_contexts(&source, names, places, out);
}

// The table of a dossier. Its parts stand among the nodes where `spans` say, its given sets where `at` says; the names are those of the given sets.
// What `names` holds afterwards is left open: `reader::leave`, the one caller, makes it for this call.
// Form 5: nodes and table are arrays of one length here, so that the table's room is no clause; of `Parts`, whose nodes are a slice, it would be a `requires`.
pub fn write(
    nodes: &[u16; node::NUMBERS],
    spans: &[u16; span::COUNT],
    operations: usize,
    at: &Bounds,
    names: &mut [Kind],
    sizes: &[u16; SIZES],
    out: &mut [u16; node::NUMBERS],
)
    ensures { TableWritten nodes.now spans.now operations at.now.givens at.now.abstracts names.old sizes.now out.old out.new }
{
    let parts = Parts {
        nodes,
        spans,
        operations,
    };
    let mut places = [0u16; NAMES];
    set_table(&parts, at, names, &mut places, sizes, out);
}
