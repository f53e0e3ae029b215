// The walk over the nodes of terms and predicates, from their ends, that writes the table: a node for each node read, at the same place.
// Form 2: functions of one shape (`prefixed`, `divided`, `negated`, `paired`; `joined`, `sides`, `connected`; `within`, `related`) differ in what they read, in the node
// that they write, and in whether a term or a predicate is promised; one function for several would be told all three, and its promise would be chosen by them.
ghost use Rattle.std.specs.Prelude.{◌≤◌};
ghost use Rattle.table_nodes.specs.TableWalkPromises.{WalkAsked, NodeAsked, SidesAsked, TermMade, BoundMade};
ghost use Rattle.lowering.specs.PredPromise.{PredWritten};

use crate::Reading;
use crate::braces::{listed, paired};
use crate::leaves::{constant, domain, empty_pairs, empty_set, named, number};
use form::{node, shapes};
use table_nodes::nodes::{
    element_size, first_size, next_slot, nothing, related_shape, second_size, set_node,
};
use table_nodes::{Made, table_shapes};
use type_rules::entries;
use type_rules::entries::Kind;
use type_rules::kinds::{entry, look, put};
use typing::types::prefix_type;

// The term whose nodes end at `end`.
#[cycle(walk)]
pub(crate) fn term(
    r: &Reading<'_>,
    end: usize,
    slot: u16,
    names: &mut [Kind],
    places: &mut [u16],
    out: &mut [u16],
) -> Made
    requires { WalkAsked r.now.code.now end out.old }
    ensures { TermMade r.now.code.now end slot names.old names.new places.old places.new r.now.sizes.now out.old out.new result }
{
    let Some(at) = end.checked_sub(node::SIZE) else {
        return nothing();
    };
    match r.code[at + node::SHAPE] {
        shapes::NUMBER => number(r.code, end, out),
        shapes::NAME => named(r.code, end, names, places, out),
        shapes::PREFIX => prefixed(r, end, slot, names, places, out),
        shapes::DIVIDED => divided(r, end, slot, names, places, out),
        shapes::BINARY => joined(r, end, slot, names, places, out),
        shapes::SUCH => such(r, end, slot, names, places, out),
        shapes::LISTED => listed(r, end, slot, names, places, out),
        shapes::PAIRS => paired(r, end, slot, names, places, out),
        shapes::EMPTY_SET => empty_set(r.code, end, names, out),
        shapes::EMPTY_PAIRS => empty_pairs(r.code, end, names, out),
        _ => nothing(),
    }
}

// A prefix before a term.
#[cycle(walk)]
fn prefixed(
    r: &Reading<'_>,
    end: usize,
    slot: u16,
    names: &mut [Kind],
    places: &mut [u16],
    out: &mut [u16],
) -> Made
    requires { NodeAsked r.now.code.now end 3 out.old }
    ensures { TermMade r.now.code.now end slot names.old names.new places.old places.new r.now.sizes.now out.old out.new result }
{
    let at = end - node::SIZE;
    let a = r.code[at + node::A];
    let t = term(r, at, slot, names, places, out);
    let f = first_size(r.sizes, t.kind);
    let g = second_size(r.sizes, t.kind);
    set_node(out, at, table_shapes::PREFIX, f, a, g);
    Made {
        kind: prefix_type(a, t.kind),
        start: t.start,
    }
}

// t div n, t mod n.
#[cycle(walk)]
fn divided(
    r: &Reading<'_>,
    end: usize,
    slot: u16,
    names: &mut [Kind],
    places: &mut [u16],
    out: &mut [u16],
) -> Made
    requires { NodeAsked r.now.code.now end 4 out.old }
    ensures { TermMade r.now.code.now end slot names.old names.new places.old places.new r.now.sizes.now out.old out.new result }
{
    let at = end - node::SIZE;
    let a = r.code[at + node::A];
    let b = r.code[at];
    let t = term(r, at, slot, names, places, out);
    set_node(out, at, table_shapes::DIVIDED, 0, a, b);
    Made {
        kind: entries::NUMBER,
        start: t.start,
    }
}

// Two terms with an operator between them.
#[cycle(walk)]
fn joined(
    r: &Reading<'_>,
    end: usize,
    slot: u16,
    names: &mut [Kind],
    places: &mut [u16],
    out: &mut [u16],
) -> Made
    requires { NodeAsked r.now.code.now end 5 out.old }
    ensures { TermMade r.now.code.now end slot names.old names.new places.old places.new r.now.sizes.now out.old out.new result }
{
    let at = end - node::SIZE;
    let a = r.code[at + node::A];
    let u = term(r, at, slot, names, places, out);
    let t = term(r, u.start, slot, names, places, out);
    set_node(out, at, table_shapes::BINARY, u.start as u16, a, 0);
    t
}

// {x : G | p}.
#[cycle(walk)]
fn such(
    r: &Reading<'_>,
    end: usize,
    slot: u16,
    names: &mut [Kind],
    places: &mut [u16],
    out: &mut [u16],
) -> Made
    requires { NodeAsked r.now.code.now end 6 out.old }
    ensures { TermMade r.now.code.now end slot names.old names.new places.old places.new r.now.sizes.now out.old out.new result }
{
    let at = end - node::SIZE;
    let p = bound(r, end, slot, names, places, out);
    set_node(out, at, table_shapes::SUCH, 0, slot, 0);
    Made {
        kind: p.kind.set_of(),
        start: p.start,
    }
}

// A predicate with a name bound over a domain, both in front of the node that ends at `end` and has the name. The kind is what the name is.
#[cycle(walk)]
fn bound(
    r: &Reading<'_>,
    end: usize,
    slot: u16,
    names: &mut [Kind],
    places: &mut [u16],
    out: &mut [u16],
) -> Made
    requires { WalkAsked r.now.code.now end out.old × (4 ≤ end) }
    ensures { BoundMade r.now.code.now end slot names.old names.new places.old places.new r.now.sizes.now out.old out.new result }
{
    let at = end - node::SIZE;
    let x = usize::from(r.code[at + node::A]);
    let d = domain(r, at, names, out);
    let old = entry(names, x);
    let was = look(places, x);
    put(names, x, d.kind);
    put(places, x, slot);
    let p = pred(r, d.start, next_slot(slot), names, places, out);
    put(names, x, old);
    put(places, x, was);
    Made {
        kind: d.kind,
        start: p,
    }
}

// The predicate whose nodes end at `end`: where they begin.
// Form 1: 0 where no nodes of a tree end, as `nothing` has it for terms. With an Option `constant`, `sides`, `within`, `related` and `quantified` would put their place into `Some`,
// which of the last four may be that 0, and `bound` would turn `None` back into it for `Made`; `connected` alone would ask (`q?`), where the walk now goes on from place 0 and ends.
#[cycle(walk)]
pub fn pred(
    r: &Reading<'_>,
    end: usize,
    slot: u16,
    names: &mut [Kind],
    places: &mut [u16],
    out: &mut [u16],
) -> usize
    requires { WalkAsked r.now.code.now end out.old }
    ensures { PredWritten r.now.code.now end slot names.old names.new places.old places.new r.now.sizes.now out.old out.new result }
{
    let Some(at) = end.checked_sub(node::SIZE) else {
        return 0;
    };
    match r.code[at + node::SHAPE] {
        shapes::TRUTH => constant(r.code, end, out),
        shapes::NEGATION => negated(r, end, slot, names, places, out),
        shapes::CONNECTED => connected(r, end, slot, names, places, out),
        shapes::COMPARED => sides(r, end, slot, names, places, out, table_shapes::COMPARED),
        shapes::MEMBER => sides(r, end, slot, names, places, out, table_shapes::MEMBER),
        shapes::WITHIN => within(r, end, slot, names, places, out),
        shapes::RELATED => related(r, end, slot, names, places, out),
        shapes::QUANTIFIED => quantified(r, end, slot, names, places, out),
        _ => 0,
    }
}

// not p.
#[cycle(walk)]
fn negated(
    r: &Reading<'_>,
    end: usize,
    slot: u16,
    names: &mut [Kind],
    places: &mut [u16],
    out: &mut [u16],
) -> usize
    requires { NodeAsked r.now.code.now end 2 out.old }
    ensures { PredWritten r.now.code.now end slot names.old names.new places.old places.new r.now.sizes.now out.old out.new result }
{
    let at = end - node::SIZE;
    let p = pred(r, at, slot, names, places, out);
    set_node(out, at, table_shapes::NEGATION, 0, 0, 0);
    p
}

// Two predicates with a connective between them.
#[cycle(walk)]
fn connected(
    r: &Reading<'_>,
    end: usize,
    slot: u16,
    names: &mut [Kind],
    places: &mut [u16],
    out: &mut [u16],
) -> usize
    requires { NodeAsked r.now.code.now end 3 out.old }
    ensures { PredWritten r.now.code.now end slot names.old names.new places.old places.new r.now.sizes.now out.old out.new result }
{
    let at = end - node::SIZE;
    let a = r.code[at + node::A];
    let q = pred(r, at, slot, names, places, out);
    let p = pred(r, q, slot, names, places, out);
    set_node(out, at, table_shapes::CONNECTED, q as u16, a, 0);
    p
}

// t = u and the other comparisons, t in u: two terms with a symbol between them; the shape is that of the node in the table.
#[cycle(walk)]
fn sides(
    r: &Reading<'_>,
    end: usize,
    slot: u16,
    names: &mut [Kind],
    places: &mut [u16],
    out: &mut [u16],
    shape: u16,
) -> usize
    requires { SidesAsked r.now.code.now end shape out.old }
    ensures { PredWritten r.now.code.now end slot names.old names.new places.old places.new r.now.sizes.now out.old out.new result }
{
    let at = end - node::SIZE;
    let a = r.code[at + node::A];
    let u = term(r, at, slot, names, places, out);
    let t = term(r, u.start, slot, names, places, out);
    set_node(out, at, shape, u.start as u16, a, 0);
    t.start
}

// t in a..b.
#[cycle(walk)]
fn within(
    r: &Reading<'_>,
    end: usize,
    slot: u16,
    names: &mut [Kind],
    places: &mut [u16],
    out: &mut [u16],
) -> usize
    requires { NodeAsked r.now.code.now end 6 out.old }
    ensures { PredWritten r.now.code.now end slot names.old names.new places.old places.new r.now.sizes.now out.old out.new result }
{
    let at = end - node::SIZE;
    let a = r.code[at + node::A];
    let d = domain(r, at, names, out);
    let t = term(r, d.start, slot, names, places, out);
    set_node(out, at, table_shapes::WITHIN, 0, a, 0);
    t.start
}

// t |-> u in v.
#[cycle(walk)]
fn related(
    r: &Reading<'_>,
    end: usize,
    slot: u16,
    names: &mut [Kind],
    places: &mut [u16],
    out: &mut [u16],
) -> usize
    requires { NodeAsked r.now.code.now end 7 out.old }
    ensures { PredWritten r.now.code.now end slot names.old names.new places.old places.new r.now.sizes.now out.old out.new result }
{
    let at = end - node::SIZE;
    let a = r.code[at + node::A];
    let v = term(r, at, slot, names, places, out);
    let u = term(r, v.start, slot, names, places, out);
    let t = term(r, u.start, slot, names, places, out);
    let n = element_size(r.sizes, u.kind);
    set_node(out, at, related_shape(a), u.start as u16, n, v.start as u16);
    t.start
}

// (forall x : T @ p), and the other quantifiers.
#[cycle(walk)]
fn quantified(
    r: &Reading<'_>,
    end: usize,
    slot: u16,
    names: &mut [Kind],
    places: &mut [u16],
    out: &mut [u16],
) -> usize
    requires { NodeAsked r.now.code.now end 8 out.old }
    ensures { PredWritten r.now.code.now end slot names.old names.new places.old places.new r.now.sizes.now out.old out.new result }
{
    let at = end - node::SIZE;
    let b = r.code[at];
    let p = bound(r, end, slot, names, places, out);
    set_node(out, at, table_shapes::QUANTIFIED, 0, slot, b);
    p.start
}
