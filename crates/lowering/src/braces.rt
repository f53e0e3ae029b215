// The walk over the terms and the pairs of braces.
// Form 2: `paired` and `pairs` are as `listed` and `items` over pairs, whose nodes have a size and two starts. Tried on a small cycle of this shape: a generic
// function over a trait that both implement; the borrow checker does not cover a method of an implementation that leads back to its own cycle of calls.
ghost use Rattle.std.specs.Prelude.{◌≡◌, ◌+◌, ◌-◌, ◌≤◌, get_or};
ghost use Rattle.table_nodes.specs.TableWalkPromises.{WalkAsked, NodeAsked, TermMade, ItemsMade, PairsMade};

use crate::Reading;
use crate::walk::term;
use form::{node, shapes};
use table_nodes::nodes::{element_size, nothing, set_node};
use table_nodes::{Made, table_shapes};
use type_rules::entries::Kind;
use type_rules::kinds::shared_kind;

// {t, ...}.
#[cycle(walk)]
pub(crate) fn listed(
    r: &Reading<'_>,
    end: usize,
    slot: u16,
    names: &mut [Kind],
    places: &mut [u16],
    out: &mut [u16],
) -> Made
    requires { NodeAsked r.now.code.now end 7 out.old }
    ensures { TermMade r.now.code.now end slot names.old names.new places.old places.new r.now.sizes.now out.old out.new result }
{
    let at = end - node::SIZE;
    let t = items(r, at, slot, names, places, out);
    set_node(out, at, table_shapes::LISTED, 0, 0, 0);
    Made {
        kind: t.kind.set_of(),
        start: t.start,
    }
}

// {t |-> t, ...}.
#[cycle(walk)]
pub(crate) fn paired(
    r: &Reading<'_>,
    end: usize,
    slot: u16,
    names: &mut [Kind],
    places: &mut [u16],
    out: &mut [u16],
) -> Made
    requires { NodeAsked r.now.code.now end 8 out.old }
    ensures { TermMade r.now.code.now end slot names.old names.new places.old places.new r.now.sizes.now out.old out.new result }
{
    let at = end - node::SIZE;
    let t = pairs(r, at, slot, names, places, out);
    set_node(out, at, table_shapes::PAIRS, 0, 0, 0);
    t
}

// The terms of a brace.
#[cycle(walk)]
fn items(
    r: &Reading<'_>,
    end: usize,
    slot: u16,
    names: &mut [Kind],
    places: &mut [u16],
    out: &mut [u16],
) -> Made
    requires { WalkAsked r.now.code.now end out.old }
    ensures { ItemsMade r.now.code.now end slot names.old names.new places.old places.new r.now.sizes.now out.old out.new result }
{
    let Some(at) = end.checked_sub(node::SIZE) else {
        return nothing();
    };
    if r.code[at + node::SHAPE] == shapes::LAST {
        let t = term(r, at, slot, names, places, out);
        set_node(out, at, table_shapes::LAST_ITEM, 0, 0, 0);
        return t;
    }
    let l = items(r, at, slot, names, places, out);
    let t = term(r, l.start, slot, names, places, out);
    set_node(out, at, table_shapes::ALSO_ITEM, l.start as u16, 0, 0);
    Made {
        kind: shared_kind(t.kind, l.kind),
        start: t.start,
    }
}

// The pairs of a brace.
#[cycle(walk)]
fn pairs(
    r: &Reading<'_>,
    end: usize,
    slot: u16,
    names: &mut [Kind],
    places: &mut [u16],
    out: &mut [u16],
) -> Made
    requires { WalkAsked r.now.code.now end out.old }
    ensures { PairsMade r.now.code.now end slot names.old names.new places.old places.new r.now.sizes.now out.old out.new result }
{
    let Some(at) = end.checked_sub(node::SIZE) else {
        return nothing();
    };
    if r.code[at + node::SHAPE] == shapes::LAST {
        return last_pair(r, end, slot, names, places, out);
    }
    next_pair(r, end, slot, names, places, out)
}

// The last pair of a brace.
#[cycle(walk)]
fn last_pair(
    r: &Reading<'_>,
    end: usize,
    slot: u16,
    names: &mut [Kind],
    places: &mut [u16],
    out: &mut [u16],
) -> Made
    requires { NodeAsked r.now.code.now end 1 out.old }
    ensures { PairsMade r.now.code.now end slot names.old names.new places.old places.new r.now.sizes.now out.old out.new result }
{
    let at = end - node::SIZE;
    let u = term(r, at, slot, names, places, out);
    let t = term(r, u.start, slot, names, places, out);
    set_node(
        out,
        at,
        table_shapes::LAST_PAIR,
        u.start as u16,
        element_size(r.sizes, u.kind),
        0,
    );
    Made {
        kind: t.kind.pair_with(u.kind),
        start: t.start,
    }
}

// Another pair of a brace, before those that follow it.
#[cycle(walk)]
fn next_pair(
    r: &Reading<'_>,
    end: usize,
    slot: u16,
    names: &mut [Kind],
    places: &mut [u16],
    out: &mut [u16],
) -> Made
    requires { WalkAsked r.now.code.now end out.old × (4 ≤ end) × (get_or r.now.code.now (end - 4 + 3) 0 ≡ 1 → ⊥) }
    ensures { PairsMade r.now.code.now end slot names.old names.new places.old places.new r.now.sizes.now out.old out.new result }
{
    let at = end - node::SIZE;
    let l = pairs(r, at, slot, names, places, out);
    let u = term(r, l.start, slot, names, places, out);
    let t = term(r, u.start, slot, names, places, out);
    let n = element_size(r.sizes, u.kind);
    set_node(
        out,
        at,
        table_shapes::ALSO_PAIR,
        u.start as u16,
        n,
        l.start as u16,
    );
    let k = t.kind.pair_with(u.kind);
    Made {
        kind: shared_kind(k, l.kind),
        start: t.start,
    }
}
