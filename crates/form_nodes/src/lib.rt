// Kinds of symbols, nodes, ranges: what the form pass is made of.
#![tactic(auto)]

ghost use Rattle.std.specs.Prelude.{◌≡◌, ◌+◌, ◌≤◌, length};
ghost use Rattle.refusals.specs.declared.Refusal.TheVariants.{NoDossier};

use refusals::{Fault, Refusal};

pub mod kinds;
pub mod nodes;
pub mod ranges;

// The symbols of a text: the codes of their kinds, and their values.
#[derive(Clone, Copy)]
pub struct Symbols<'a> {
    pub kinds: &'a [u8],
    pub values: &'a [u16],
    ghost few: { length kinds.now ≤ 4096 },
}

// What was read: the number of the symbol behind it, and how many numbers are written. The place of a fault in the form is the number of a symbol too.
#[derive(Clone, Copy)]
pub struct Read {
    pub at: usize,
    pub count: usize,
}

impl Read {
    // Behind one symbol more, for which no numbers are written.
    pub fn skip(self) -> Read
        requires { self.at ≤ 4100 }
        ensures { (result.at ≡ self.at + 1) × (result.count ≡ self.count) }
    {
        Read {
            at: self.at + 1,
            ..self
        }
    }
}

// The fault at a symbol that fits nothing that may stand there.
// Form 2: `differs` of parser makes the fault of another refusal. A method of `Refusal` that makes it would be called with the refusal named at each of the
// nine calls of this one and the three of `differs`, for one function less.
pub fn no_dossier(place: usize) -> Fault
    ensures { result ≡ record { place = place; refusal = NoDossier } }
{
    Fault {
        place,
        refusal: Refusal::NoDossier,
    }
}
