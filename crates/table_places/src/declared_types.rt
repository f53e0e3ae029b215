// The carriers of declared names, written behind the nodes of the names.
ghost use Rattle.std.specs.Prelude.{◌≡◌, ◌+◌, ◌≤◌, ◌<◌, length};
ghost use Rattle.table_places.specs.DossierTableByNumber.{given_index};
ghost use Rattle.table_places.specs.TablePromises.{TableRoom, TypeSet, TypesSet, OperationTypesSet, DeclaredSet};

use form::{node, shapes};
use node_spans::{between, operation_spans, span, span_at};
use table_nodes::nodes::{given_size, range_count, set_node};
use type_rules::entries;
use type_rules::entries::Kind;
use type_rules::kinds::entry;

// The number of the given set that a name is.
// Form 1: a node has 0 in the place of no such set; with an Option each of the three calls would add `.unwrap_or(0)`.
fn given_index(k: Kind) -> u16
    ensures { (result ≡ given_index k) × (result < 8) }
{
    k.given().unwrap_or(0)
}

// What is read: the nodes of a dossier, where its parts stand among them, how many operations it has, the names of its given sets, and how many elements these
// have.
// Form 5: no `Parts`, whose spans are 80: here they may be of any number, as where this was a function over slices.
#[derive(Clone, Copy)]
pub struct Declarations<'a> {
    pub nodes: &'a [u16],
    pub spans: &'a [u16],
    pub operations: usize,
    pub names: &'a [Kind],
    pub sizes: &'a [u16],
    ghost few: { operations ≤ 16 },
}

// The carrier of a declared type, written at q; n has the type's node.
fn set_type(s: &Declarations<'_>, n: &[u16], q: usize, out: &mut [u16])
    requires { (4 ≤ length n.now) × (q + 4 ≤ length out.old) × (length out.old ≤ 16384) }
    ensures { TypeSet n.now 0 q s.now.names.now s.now.sizes.now out.old out.new }
{
    let a = n[node::A];
    let b = n[0];
    let shape = n[node::SHAPE];
    let k = entry(s.names, usize::from(a));
    match shape {
        shapes::RANGE => set_node(out, q, shapes::RANGE, 0, a, range_count(a, b)),
        shapes::SET | shapes::POWER => {
            set_node(out, q, shape, given_index(k), given_size(s.sizes, k), 0);
        }
        _ => {
            let l = entry(s.names, usize::from(b));
            // the two given sets of an arrow in one number, as in the kind of its pairs
            let i = entries::ROW * given_index(k) + given_index(l);
            set_node(
                out,
                q,
                shape,
                i,
                given_size(s.sizes, k),
                given_size(s.sizes, l),
            );
        }
    }
}

// The carriers of declarations.
fn set_types(s: &Declarations<'_>, from: usize, to: usize, out: &mut [u16])
    requires { TableRoom s.now.nodes.now out.old }
    ensures { TypesSet s.now.nodes.now from to s.now.names.now s.now.sizes.now out.old out.new }
{
    let code = between(s.nodes, from, to);
    for (k, d) in code.chunks_exact(node::DECLARATION).enumerate() {
        // the type's node stands behind the name's
        set_type(
            s,
            &d[node::SIZE..],
            from + node::DECLARATION * k + node::SIZE,
            out,
        );
    }
}

// The carriers of the operations' parameters.
fn set_parameter_types(s: &Declarations<'_>, out: &mut [u16])
    requires { TableRoom s.now.nodes.now out.old }
    ensures { OperationTypesSet s.now.nodes.now s.now.spans.now s.now.operations s.now.names.now s.now.sizes.now out.old out.new }
{
    for k in 0..s.operations {
        let o = operation_spans(s.spans, k);
        set_types(s, o.first, o.last, out);
    }
}

// The carriers of all declared names.
pub fn set_declared(s: &Declarations<'_>, out: &mut [u16])
    requires { TableRoom s.now.nodes.now out.old }
    ensures { DeclaredSet s.now.nodes.now s.now.spans.now s.now.operations s.now.names.now s.now.sizes.now out.old out.new }
{
    let a0 = span_at(s.spans, span::ABSTRACT_FIRST);
    let a1 = span_at(s.spans, span::ABSTRACT_LAST);
    set_types(s, a0, a1, out);
    let c0 = span_at(s.spans, span::CONCRETE_FIRST);
    let c1 = span_at(s.spans, span::CONCRETE_LAST);
    set_types(s, c0, c1, out);
    set_parameter_types(s, out);
}
