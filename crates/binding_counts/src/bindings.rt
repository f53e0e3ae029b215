// Number 12: how many bindings the variables of a state have, and the inputs and the outputs of an operation.
ghost use Rattle.std.specs.Prelude.{◌≡◌, false, ◌&&◌, ◌+◌, ◌-◌, ◌*◌, ◌^◌, ◌≤◌, ◌<◌, leb, length};
ghost use Rattle.type_rules.specs.TypesByNumber.{fault_key};
ghost use Rattle.node_spans.specs.StateSpans.{state_first};
ghost use Rattle.binding_counts.specs.BindingsByNumber.{cap, size_at, TypeCounted, FactorCounted, GroupCounted, HeadingFaulted, StateBound, OperationBound, OperationsBound, BindingsSeen};

use form::name_endings::{INPUT, OUTPUT, PLAIN};
use form::{node, shapes};
use lexical::bounds::{PARAMETER_BINDINGS, STATE_BINDINGS};
use lexical::endings;
use names::SIZES;
use node_spans::span::State;
use node_spans::{Parts, span};
use refusals::{Fault, Refusal};
use type_rules::entries::Kind;
use type_rules::kinds::{entry, lesser_of, look, size_in};

// What each name is, by its number, and how many elements each given set has.
#[derive(Clone, Copy)]
struct Sets<'a> {
    names: &'a [Kind],
    sizes: &'a [u16],
}

// How many bindings there may be at the most; which of document 01's two limits it is says the caller.
#[derive(Clone, Copy)]
struct Limit {
    most: u32,
    ghost small: { most ≤ 4096 },
}

// A product of counts; the limit and one for all above it.
fn product(limit: Limit, n: u32, m: u32) -> u32
    ensures { result ≡ cap limit.most (n * m) }
{
    n.saturating_mul(m).min(limit.most + 1)
}

// A power, likewise.
fn power(limit: Limit, b: u32, k: u32) -> u32
    ensures { result ≡ cap limit.most (b ^ k) }
{
    b.saturating_pow(k).min(limit.most + 1)
}

// How many elements the given set has whose name has the number x.
fn size_of(g: &Sets<'_>, x: u16) -> u32
    ensures { (result ≡ size_at g.now.names.now g.now.sizes.now x) × (result < 65536) }
{
    let k = entry(g.names, usize::from(x));
    size_in(g.sizes, usize::from(k.from_first_given()))
}

// How many numbers a range has.
fn width(a: u16, b: u16) -> u32
    ensures { result ≡ b - a + 1 }
{
    u32::from(b.saturating_sub(a)) + 1
}

// An element is in a set or not, and a pair likewise.
const IN_OR_OUT: u32 = 2;

// How many values a declared type has, by its node.
fn type_count(t: &[u16], limit: Limit, g: &Sets<'_>) -> u32
    requires { length t.now ≡ 4 }
    ensures { TypeCounted t.now 0 limit.most g.now.names.now g.now.sizes.now result }
{
    let a = t[node::A];
    let b = t[0];
    let n = size_of(g, a);
    let m = size_of(g, b);
    match t[node::SHAPE] {
        shapes::SET => n,
        shapes::RANGE => width(a, b),
        shapes::POWER => power(limit, IN_OR_OUT, n),
        shapes::RELATION => power(limit, IN_OR_OUT, n * m),
        shapes::PARTIAL => power(limit, m + 1, n),
        _ => power(limit, m, n),
    }
}

// What a declared name adds to the product: nothing, where it has another ending.
fn factor(d: &[u16; node::DECLARATION], ending: u16, limit: Limit, g: &Sets<'_>) -> u32
    ensures { FactorCounted d.now 0 ending limit.most g.now.names.now g.now.sizes.now result }
{
    if d[node::A] % endings::COUNT == ending {
        // the type's node stands behind the name's
        return type_count(&d[node::SIZE..], limit, g);
    }
    1
}

// How many bindings the declared names with an ending have.
fn group(code: &[u16], ending: u16, limit: Limit, g: &Sets<'_>) -> u32
    ensures { GroupCounted code.now ending limit.most g.now.names.now g.now.sizes.now result }
{
    let mut n: u32 = 1;
    for d in code.as_chunks::<{ node::DECLARATION }>().0 {
        n = product(limit, n, factor(d, ending, limit, g));
    }
    n
}

// The fault of too many bindings, at the heading in front of `from`.
fn heading_fault(nodes: &[u16], from: usize) -> Option<Fault>
    ensures { HeadingFaulted nodes.now from false (fault_key result) }
{
    let at = from.checked_sub(node::SIZE)?;
    let place = usize::from(look(nodes, at + node::PLACE));
    Some(Fault {
        place,
        refusal: Refusal::ManyBindings,
    })
}

// A state.
fn state(p: &Parts<'_>, state: State, g: &Sets<'_>) -> Option<Fault>
    ensures { StateBound p.now.nodes.now p.now.spans.now (state_first state) g.now.names.now g.now.sizes.now (fault_key result) }
{
    let limit = Limit {
        most: STATE_BINDINGS,
    };
    let n = group(p.variables(state), PLAIN, limit, g);
    if n <= STATE_BINDINGS {
        return None;
    }
    heading_fault(p.nodes, p.span(state.first()))
}

fn both_few(n: u32, m: u32) -> bool
    ensures { result ≡ (leb n 64 && leb m 64) }
{
    n <= PARAMETER_BINDINGS && m <= PARAMETER_BINDINGS
}

// The operation k.
fn operation(p: &Parts<'_>, k: usize, g: &Sets<'_>) -> Option<Fault>
    requires { k < 18 }
    ensures { OperationBound p.now.nodes.now p.now.spans.now k g.now.names.now g.now.sizes.now (fault_key result) }
{
    let o = p.operation(k);
    let code = p.parameters(&o);
    let limit = Limit {
        most: PARAMETER_BINDINGS,
    };
    let inputs = group(code, INPUT, limit, g);
    let outputs = group(code, OUTPUT, limit, g);
    if both_few(inputs, outputs) {
        return None;
    }
    heading_fault(p.nodes, o.first)
}

// The operations, as many as the spans have room for.
fn all_operations(p: &Parts<'_>, g: &Sets<'_>) -> Option<Fault>
    ensures { OperationsBound p.now.nodes.now p.now.spans.now p.now.operations g.now.names.now g.now.sizes.now (fault_key result) }
{
    let mut f = None;
    for k in 0..p.operations.min(span::ROOM) {
        f = lesser_of(f, operation(p, k, g));
    }
    f
}

// The least fault, with its place by symbols. The spans say where the parts of a dossier stand among its nodes,
// the names what each name is, by its number, the sizes how many elements each given set has.
pub fn bindings(p: &Parts<'_>, names: &[Kind], sizes: &[u16; SIZES]) -> Option<Fault>
    ensures { BindingsSeen p.now.nodes.now p.now.spans.now p.now.operations names.now sizes.now (fault_key result) }
{
    let g = Sets { names, sizes };
    let a = state(p, State::Abstract, &g);
    let c = state(p, State::Concrete, &g);
    let o = all_operations(p, &g);
    lesser_of(a, lesser_of(c, o))
}
