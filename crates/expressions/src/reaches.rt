// One step on within the limits of document 01: a level deeper, a bound name more.
ghost use Rattle.expressions.specs.ReachPromises.{Deepens, Binds};

use crate::Reach;
use lexical::bounds::{BOUND_NAMES, DEPTH};
use refusals::{Fault, Refusal};

impl Reach {
    // One level deeper; the symbol that opens it is at fault where there is none.
    pub(crate) fn deeper(self, at: usize) -> Result<Reach, Fault>
        ensures { Deepens self at result }
    {
        if DEPTH <= self.depth {
            return Err(Fault {
                place: at,
                refusal: Refusal::Deep,
            });
        }
        Ok(Reach {
            depth: self.depth + 1,
            names: self.names,
        })
    }

    // With one more name bound, or its symbol is at fault.
    // Form 2: `deeper` over the other field. One function for both would be handed count, limit and place and answer the count; each would still make its `Reach`, and there would be three
    // contracts for two.
    pub(crate) fn with_name(self, name: usize) -> Result<Reach, Fault>
        ensures { Binds self name result }
    {
        if BOUND_NAMES <= self.names {
            return Err(Fault {
                place: name,
                refusal: Refusal::Deep,
            });
        }
        Ok(Reach {
            depth: self.depth,
            names: self.names + 1,
        })
    }
}
