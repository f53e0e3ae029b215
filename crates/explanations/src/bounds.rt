// What is left out since it would take long: by how many bindings are looked at in the worst case.
ghost use Rattle.std.specs.Prelude.{◌≡◌, leb, ◌&&◌};
ghost use Rattle.explanations.specs.Bounded.{bounded};

use step_facts::Widths;

// Some seconds at most.
const MOST: usize = 67108864;

// The pairs of values that are looked at.
pub const MOST_PAIRS: usize = 1048576;

// The product, or more than any where it is larger than MOST.
// Form 1: of the eight calls outside `is_short` two show the number, three count from it, two compare with it, and one does both: with an Option each would unwrap it.
pub fn product(x: usize, y: usize) -> usize
    ensures { result ≡ bounded x y }
{
    x.saturating_mul(y).min(MOST + 1)
}

// Can all states and inputs of an operation be tried on both sides?
pub fn is_short(s: Widths) -> bool
    ensures { result ≡ (leb (bounded (bounded s.na s.ni) (bounded s.nq s.na)) 67108864 && (leb (bounded (bounded s.nc s.ni) (bounded s.nq s.nc)) 67108864 && leb (bounded s.na s.nc) 1048576)) }
{
    let abstractly = product(product(s.na, s.ni), product(s.nq, s.na));
    let concretely = product(product(s.nc, s.ni), product(s.nq, s.nc));
    abstractly <= MOST && (concretely <= MOST && product(s.na, s.nc) <= MOST_PAIRS)
}
