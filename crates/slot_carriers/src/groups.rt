// A group of variables, whose cells stand one behind the other: how many bindings it has, and the values of one of them.
ghost use Rattle.std.specs.Prelude.{◌≡◌, ◌+◌, ◌*◌, ◌<◌, pos};
ghost use Rattle.slot_carriers.specs.CellGroups.{Grouped, Counts, HoldsBinding, Others};

use crate::{CELLS, SLOTS, count_of, value_at};

// How many variables a group has, and how many bindings they have.
#[derive(Clone, Copy)]
pub struct GroupSize {
    pub variables: usize,
    pub bindings: usize,
}

impl GroupSize {
    // The size of two groups together: each binding of the one stands beside each of the other.
    pub fn with(self, other: GroupSize) -> GroupSize
        requires few_variables { self.variables + other.variables < 18446744073709551616 }
        requires few_bindings { self.bindings * other.bindings < 18446744073709551616 }
        ensures { result ≡ record { variables = self.variables + other.variables; bindings = self.bindings * other.bindings } }
    {
        GroupSize {
            variables: self.variables + other.variables,
            bindings: self.bindings * other.bindings,
        }
    }
}

// How many bindings the n variables from a slot on have.
// Form 3: by `(base..base + n).map(|slot| count_of(cells, slot)).product()` what `count_of` asks of each slot, that the product of what comes fits, and the answer stay open: `product`
// multiplies a list from its first number on, and the count is defined from the last variable on.
pub fn binding_count(cells: &[u32; CELLS], base: usize, n: usize) -> usize
    requires { Grouped cells.now base n }
    ensures { Counts cells.now base n result }
{
    let mut w = 1;
    for slot in (base..base + n).rev() {
        w *= count_of(cells, slot);
    }
    w
}

// Gives the variables of a group, from a slot on, the values of their k-th binding, in the fixed order: by the digits of k.
// Form 5: a struct of base, size and k, as `step_searches::Given` (one, since a list of groups is lent there), would be made in the argument of each of the
// eight calls, of the three that stand there now, and be taken apart here: no caller holds the three in one value.
pub fn bind(cells: &[u32; CELLS], base: usize, size: GroupSize, k: usize, slots: &mut [i64; SLOTS])
    requires k_lt_w { k < size.bindings }
    requires grouped { Grouped cells.now base size.variables }
    requires counts { Counts cells.now base size.variables size.bindings }
    ensures values { HoldsBinding cells.now base size.variables k slots.new }
    ensures others { Others (pos 0) slots.old base size.variables slots.new }
{
    let mut stride = size.bindings;
    let mut rest = k;
    for slot in base..base + size.variables {
        stride /= count_of(cells, slot);
        slots[slot] = value_at(cells, slot, rest / stride);
        rest %= stride;
    }
}
