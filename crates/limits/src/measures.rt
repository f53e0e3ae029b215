// The pass for number 13 over a whole dossier: every predicate with the sizes of the variables in its reach in a table.
ghost use Rattle.std.specs.Prelude.{◌≡◌, [], ℕ, ◌+◌, ◌≤◌, length, replicate};
ghost use Rattle.type_rules.specs.TypesByNumber.{fault_key};
ghost use Rattle.limits.specs.DossierSizesByNumber.{entry_size, marks, marked, ContextSeen, PartSeen, states_over, conditions_over, operations_over, OperationSeen, MeasuresSeen};

use form::name_endings::{PLAIN, PRIMED};
use form::{node, shapes};
use names::NAMES;
use node_spans::{Parts, span};
use refusals::Fault;
use term_sizes::sizes::{absolute_of, pred};
use type_rules::kinds::{lesser_of, put};

// The names in reach of a predicate, by the nodes of their declarations: three groups, of which the second has `shift` added to the names' numbers.
#[derive(Clone, Copy)]
struct Reach<'a> {
    first: &'a [u16],
    second: &'a [u16],
    shift: u16,
    third: &'a [u16],
}

impl Reach<'_> {
    // One group alone.
    fn of(first: &[u16]) -> Reach<'_>
        ensures { (result.first.now ≡ first.now) × (result.second.now ≡ []) × (result.shift ≡ 0) × (result.third.now ≡ []) }
    {
        let none: &[u16] = &[];
        Reach {
            first,
            second: none,
            shift: PLAIN,
            third: none,
        }
    }
}

// What the table then has of a variable by the nodes from its type's on: a range has a size, and only where names come into reach.
fn size_at<const ON: bool>(t: &[u16]) -> u16
    requires { 4 ≤ length t.now }
    ensures { result ≡ entry_size ON t.now 0 }
{
    match t[node::SHAPE] {
        shapes::RANGE if ON => absolute_of(t[node::A]).max(absolute_of(t[0])),
        _ => 0,
    }
}

// The sizes of declared names come into the table, or leave it, from the last to the first: of two with one name the first decides.
fn mark<const ON: bool>(code: &[u16], shift: u16, bounds: &mut [u16])
    ensures { bounds.new ≡ marks ON code.now shift bounds.old }
{
    for d in code.chunks_exact(node::DECLARATION).rev() {
        let n = size_at::<ON>(&d[node::SIZE..]);
        put(bounds, usize::from(d[node::A]) + usize::from(shift), n);
    }
}

// The names of a predicate come into reach, or are out of it again.
fn mark_all<const ON: bool>(r: &Reach<'_>, bounds: &mut [u16])
    ensures { bounds.new ≡ marked ON r.now.first.now r.now.second.now r.now.shift r.now.third.now bounds.old }
{
    mark::<ON>(r.third, PLAIN, bounds);
    mark::<ON>(r.second, r.shift, bounds);
    mark::<ON>(r.first, PLAIN, bounds);
}

// The predicate whose nodes end at `end`.
fn context(nodes: &[u16], r: &Reach<'_>, end: usize, bounds: &mut [u16]) -> Option<Fault>
    ensures { ContextSeen nodes.now r.now.first.now r.now.second.now r.now.shift r.now.third.now end bounds.old bounds.new (fault_key result) }
{
    let code = nodes.get(..end)?;
    mark_all::<true>(r, bounds);
    let p = pred(code, bounds);
    mark_all::<false>(r, bounds);
    p.fault.get()
}

// The predicates of the two states.
fn states(p: &Parts<'_>, bounds: &mut [u16]) -> Option<Fault>
    ensures { (m : ℕ) → PartSeen p.now.nodes.now p.now.spans.now m states_over bounds.old bounds.new (fault_key result) }
{
    let s = p.states();
    let a = Reach::of(s.abstracts);
    let c = Reach::of(s.concretes);
    let f = context(p.nodes, &a, p.span(span::ABSTRACT_END), bounds);
    let g = context(p.nodes, &c, p.span(span::CONCRETE_END), bounds);
    lesser_of(f, g)
}

// ainit, cinit and retrieve.
fn conditions(p: &Parts<'_>, bounds: &mut [u16]) -> Option<Fault>
    ensures { (m : ℕ) → PartSeen p.now.nodes.now p.now.spans.now m conditions_over bounds.old bounds.new (fault_key result) }
{
    let s = p.states();
    let a = Reach::of(s.abstracts);
    let c = Reach::of(s.concretes);
    let both = Reach {
        second: s.concretes,
        ..a
    };
    let f = context(p.nodes, &a, p.span(span::AINIT_END), bounds);
    let g = context(p.nodes, &c, p.span(span::CINIT_END), bounds);
    let h = context(p.nodes, &both, p.span(span::RETRIEVE_END), bounds);
    lesser_of(f, lesser_of(g, h))
}

// The two predicates of the operation k: the variables of a state, the same primed, and the parameters.
fn operation(p: &Parts<'_>, k: usize, bounds: &mut [u16]) -> Option<Fault>
    requires { k ≤ 18 }
    ensures { OperationSeen p.now.nodes.now p.now.spans.now k bounds.old bounds.new (fault_key result) }
{
    let s = p.states();
    let o = p.operation(k);
    let a = Reach {
        first: s.abstracts,
        second: s.abstracts,
        shift: PRIMED,
        third: p.parameters(&o),
    };
    let c = Reach {
        first: s.concretes,
        second: s.concretes,
        ..a
    };
    let f = context(p.nodes, &a, o.middle, bounds);
    let g = context(p.nodes, &c, o.end, bounds);
    lesser_of(f, g)
}

// The operations.
fn operations(p: &Parts<'_>, bounds: &mut [u16]) -> Option<Fault>
    requires { p.now.operations ≤ 18 }
    ensures { PartSeen p.now.nodes.now p.now.spans.now p.now.operations operations_over bounds.old bounds.new (fault_key result) }
{
    let mut f = None;
    for k in 0..p.operations {
        let g = operation(p, k, bounds);
        f = lesser_of(f, g);
    }
    f
}

// The least fault of number 13, with its place by symbols. The spans say where the parts of the dossier stand among the nodes.
pub fn measures(p: &Parts<'_>) -> Option<Fault>
    ensures { MeasuresSeen p.now.nodes.now p.now.spans.now p.now.operations 16384 (fault_key result) }
{
    let mut bounds = [0u16; NAMES];
    measure(p, &mut bounds)
}

// The same for names with any numbers: their sizes in a table that is lent, of any length.
// `bounds` may hold anything. What it holds afterwards is left open.
pub fn measures_in(p: &Parts<'_>, bounds: &mut [u16]) -> Option<Fault>
    ensures { MeasuresSeen p.now.nodes.now p.now.spans.now p.now.operations (length bounds.old) (fault_key result) }
{
    bounds.fill(0);
    measure(p, bounds)
}

// The same with a table in which no name has a size.
fn measure(p: &Parts<'_>, bounds: &mut [u16]) -> Option<Fault>
    requires { bounds.old ≡ replicate (length bounds.old) 0 }
    ensures { MeasuresSeen p.now.nodes.now p.now.spans.now p.now.operations (length bounds.old) (fault_key result) }
{
    if span::ROOM < p.operations {
        return None;
    }
    let f = states(p, bounds);
    let g = conditions(p, bounds);
    let h = operations(p, bounds);
    lesser_of(f, lesser_of(g, h))
}
