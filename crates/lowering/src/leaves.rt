// The nodes that the walk writes with no call of itself: what names are bound over, numbers, names, empty sets, truth values.
ghost use Rattle.std.specs.Prelude.{List, ℕ};
ghost use Rattle.table_nodes.specs.TableWalkPromises.{WalkAsked, NodeAsked, DomainMade, TermMade};
ghost use Rattle.lowering.specs.PredPromise.{PredWritten};

use crate::Reading;
use form::{node, shapes};
use lexical::bounds::LARGEST_NUMBER;
use table_nodes::nodes::{given_size, nothing, range_count, set_node, truth_of};
use table_nodes::{Made, slots, table_shapes};
use type_rules::entries;
use type_rules::entries::Kind;
use type_rules::kinds::{entry, look};

// What a name is bound over, or the range after `in`: the node that ends at `end`.
pub(crate) fn domain(r: &Reading<'_>, end: usize, names: &[Kind], out: &mut [u16]) -> Made
    requires { WalkAsked r.now.code.now end out.old }
    ensures { DomainMade r.now.code.now end names.now r.now.sizes.now out.old out.new result }
{
    let Some(at) = end.checked_sub(node::SIZE) else {
        return nothing();
    };
    let a = r.code[at + node::A];
    if r.code[at + node::SHAPE] == shapes::SET {
        let e = entry(names, usize::from(a));
        let n = given_size(r.sizes, e);
        set_node(out, at, table_shapes::OVER, 0, LARGEST_NUMBER, n);
        return Made {
            kind: e.element_of(),
            start: at,
        };
    }
    let b = r.code[at];
    let n = range_count(a, b);
    set_node(out, at, table_shapes::OVER, 0, a, n);
    Made {
        kind: entries::NUMBER,
        start: at,
    }
}

// A number.
pub(crate) fn number(code: &[u16], end: usize, out: &mut [u16]) -> Made
    requires { NodeAsked code.now end 1 out.old }
    ensures { (s : ℕ) (T W z : List ℕ) → TermMade code.now end s T T W W z out.old out.new result }
{
    let at = end - node::SIZE;
    let a = code[at + node::A];
    set_node(out, at, table_shapes::VALUE, 0, a, 0);
    Made {
        kind: entries::NUMBER,
        start: at,
    }
}

// A name: its slot, or an element by its place.
pub(crate) fn named(
    code: &[u16],
    end: usize,
    names: &[Kind],
    places: &[u16],
    out: &mut [u16],
) -> Made
    requires { NodeAsked code.now end 2 out.old }
    ensures { (s : ℕ) (z : List ℕ) → TermMade code.now end s names.now names.now places.now places.now z out.old out.new result }
{
    let at = end - node::SIZE;
    let x = usize::from(code[at + node::A]);
    let e = entry(names, x);
    let w = look(places, x);
    if w < slots::ELEMENTS {
        set_node(out, at, table_shapes::SLOT, 0, w, 0);
        return Made { kind: e, start: at };
    }
    set_node(out, at, table_shapes::VALUE, 0, w - slots::ELEMENTS, 0);
    Made { kind: e, start: at }
}

// empty G.
pub(crate) fn empty_set(code: &[u16], end: usize, names: &[Kind], out: &mut [u16]) -> Made
    requires { NodeAsked code.now end 9 out.old }
    ensures { (s : ℕ) (W z : List ℕ) → TermMade code.now end s names.now names.now W W z out.old out.new result }
{
    let at = end - node::SIZE;
    let e = entry(names, usize::from(code[at + node::A]));
    set_node(out, at, table_shapes::VALUE, 0, 0, 0);
    Made {
        kind: e.element_of().set_of(),
        start: at,
    }
}

// empty G H.
pub(crate) fn empty_pairs(code: &[u16], end: usize, names: &[Kind], out: &mut [u16]) -> Made
    requires { NodeAsked code.now end 10 out.old }
    ensures { (s : ℕ) (W z : List ℕ) → TermMade code.now end s names.now names.now W W z out.old out.new result }
{
    let at = end - node::SIZE;
    let g = entry(names, usize::from(code[at + node::A]));
    let h = entry(names, usize::from(code[at]));
    set_node(out, at, table_shapes::VALUE, 0, 0, 0);
    Made {
        kind: g.element_of().pair_with(h.element_of()),
        start: at,
    }
}

// true, false.
pub(crate) fn constant(code: &[u16], end: usize, out: &mut [u16]) -> usize
    requires { NodeAsked code.now end 1 out.old }
    ensures { (s : ℕ) (T W z : List ℕ) → PredWritten code.now end s T T W W z out.old out.new result }
{
    let at = end - node::SIZE;
    let a = code[at + node::A];
    set_node(out, at, table_shapes::TRUTH, 0, truth_of(a), 0);
    at
}
