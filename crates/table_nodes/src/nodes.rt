// The nodes of the table, and the numbers in them that are not those of the nodes read.
ghost use Rattle.std.specs.Prelude.{◌≡◌, ◌+◌, ◌≤◌, length};
ghost use Rattle.form.specs.Codes.{node};
ghost use Rattle.table_nodes.specs.TableByNumber.{next_slot, given_size, element_size, first_size, second_size, range_count, set_size};
ghost use Rattle.table_nodes.specs.TableWalkPromises.{RelatedShape, TruthOf, patch};

use crate::{Made, slots, table_shapes};
use form::node;
use form::operator_codes::{IN, TRUE};
use type_rules::entries;
use type_rules::entries::Kind;
use type_rules::kinds::{look, range_fits};

// One node, from the place `at` on.
// Form 2: `put` of form_nodes stores the same four numbers. One function would stand in `form`, below both, with its definition (`patch`); in form_nodes would stay
// a function that answers the place behind, with a law from `patch` to `Writes`, in the place of the four stores.
// Form 4: four stores, as at `put`, where a copy was measured.
pub fn set_node(out: &mut [u16], at: usize, shape: u16, i: u16, a: u16, b: u16)
    requires { at + 4 ≤ length out.old }
    ensures { out.new ≡ patch at (node shape i a b) out.old }
{
    out[at] = b;
    out[at + node::A] = a;
    out[at + node::PLACE] = i;
    out[at + node::SHAPE] = shape;
}

// No nodes of a tree end here.
// Form 1: no Option, since no caller asks: the walk goes on from place 0, where none end either, and names and places are restored on the way back; with `?`
// the calls that bind a name would have to restore it before.
pub fn nothing() -> Made
    ensures { result.start ≡ 0 }
{
    Made {
        kind: entries::NONE,
        start: 0,
    }
}

// The slot behind a bound name's; behind the last one it stays.
pub fn next_slot(s: u16) -> u16
    ensures { result ≡ next_slot s }
{
    s.min(slots::LAST - 1) + 1
}

// How many elements the given set has, where there is one.
// Form 1: a node has 0 in the place of no such set; with an Option each caller would turn `None` back into it.
fn size_of(sizes: &[u16], set: Option<u16>) -> u16
    ensures { result ≡ set_size sizes.now set }
{
    set.map_or(0, |g| look(sizes, usize::from(g)))
}

// How many elements the given set has that a name is; that elements are of; that the first and the second sides of pairs are of.
pub fn given_size(sizes: &[u16], k: Kind) -> u16
    ensures { result ≡ given_size sizes.now k }
{
    size_of(sizes, k.given())
}

pub fn element_size(sizes: &[u16], k: Kind) -> u16
    ensures { result ≡ element_size sizes.now k }
{
    size_of(sizes, k.element())
}

pub fn first_size(sizes: &[u16], k: Kind) -> u16
    ensures { result ≡ first_size sizes.now k }
{
    size_of(sizes, k.pairs().map(|p| p.0))
}

pub fn second_size(sizes: &[u16], k: Kind) -> u16
    ensures { result ≡ second_size sizes.now k }
{
    size_of(sizes, k.pairs().map(|p| p.1))
}

// How many numbers a range has that is not at fault.
// Form 1: a node has 0 in the place of such a count, as at `size_of`; with an Option each of the two callers, which write it into a node, would turn `None` back into it.
pub fn range_count(a: u16, b: u16) -> u16
    ensures { result ≡ range_count a b }
{
    if range_fits(a, b) {
        return b - a + 1;
    }
    0
}

// Memberships and truth values, by the codes of their symbols.
pub fn related_shape(o: u16) -> u16
    ensures { RelatedShape o result }
{
    if o == IN {
        return table_shapes::RELATED;
    }
    table_shapes::UNRELATED
}

pub fn truth_of(o: u16) -> u16
    ensures { TruthOf o result }
{
    u16::from(o == TRUE)
}
