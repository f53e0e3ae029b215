// Where values are found: the places of elements, the slots of variables and parameters.
ghost use Rattle.std.specs.Prelude.{◌≡◌, ◌%◌, ◌≤◌, ◌<◌, eqb, length};
ghost use Rattle.table_places.specs.TablePromises.{ElementsSet, ElementSet, VariablesSet, ParametersSet, PlacesSet};

use form::name_endings::{INPUT, PLAIN, PRIMED};
use form::{node, shapes};
use lexical::endings;
use table_nodes::slots;
use type_rules::kinds::put;

// Elements have their places in their given sets, above all slots.
fn place_elements(code: &[u16], places: &mut [u16])
    requires { length code.now ≤ 16384 }
    ensures { ElementsSet code.now places.old places.new }
{
    let mut j: u16 = slots::ELEMENTS;
    for n in code.chunks_exact(node::SIZE) {
        j = place_element(n, j, places);
    }
}

// The place of the next element: a given set's title has none, and its elements begin anew.
fn place_element(n: &[u16], j: u16, places: &mut [u16]) -> u16
    requires { (length n.now ≡ 4) × (64 ≤ j) × (j < 65535) }
    ensures { ElementSet n.now 0 j places.old places.new result }
{
    if n[node::SHAPE] == shapes::GIVEN {
        return slots::ELEMENTS;
    }
    put(places, usize::from(n[node::A]), j);
    j + 1
}

// Variables have slots from `slot` on.
fn place_variables(code: &[u16], shift: u16, slot: u16, places: &mut [u16])
    requires { (length code.now ≤ 16384) × (slot < 64) }
    ensures { VariablesSet code.now shift slot places.old places.new }
{
    for (d, s) in code.chunks_exact(node::DECLARATION).zip(slot..) {
        put(places, usize::from(d[node::A]) + usize::from(shift), s);
    }
}

// Inputs are told by the ending in their number.
fn is_input(x: u16) -> bool
    ensures { result ≡ eqb (x % 4) 2 }
{
    x % endings::COUNT == INPUT
}

// Inputs and outputs have slots of their own.
pub fn place_parameters(code: &[u16], places: &mut [u16])
    requires { length code.now ≤ 16384 }
    ensures { ParametersSet code.now places.old places.new }
{
    let mut i: u16 = slots::INPUTS;
    let mut o: u16 = slots::OUTPUTS;
    for d in code.chunks_exact(node::DECLARATION) {
        let x = d[node::A];
        if is_input(x) {
            put(places, usize::from(x), i);
            i += 1;
        } else {
            put(places, usize::from(x), o);
            o += 1;
        }
    }
}

// The places of elements and of the variables of both states, plain and primed.
pub fn place_all(givens: &[u16], abstracts: &[u16], concretes: &[u16], places: &mut [u16])
    requires { (length givens.now ≤ 16384) × (length abstracts.now ≤ 16384) × (length concretes.now ≤ 16384) }
    ensures { PlacesSet givens.now abstracts.now concretes.now places.old places.new }
{
    place_elements(givens, places);
    place_variables(abstracts, PLAIN, slots::ABSTRACT, places);
    place_variables(abstracts, PRIMED, slots::ABSTRACT_PRIMED, places);
    place_variables(concretes, PLAIN, slots::CONCRETE, places);
    place_variables(concretes, PRIMED, slots::CONCRETE_PRIMED, places);
}
