// Does a predicate of the reader's table hold at the values in the slots? The evaluator's answer, over the definitions.
#![tactic(auto)]

ghost use Rattle.std.specs.Prelude.{◌≡◌};
ghost use Rattle.truths.specs.Promises.{Asked, Answers};

use evaluator::{SLOTS, holds};
use form::node;

// The predicate whose nodes end at `end`; the slots are as they were.
pub fn truth(t: &[u16; node::NUMBERS], end: usize, slots: &mut [i64; SLOTS]) -> bool
    requires { Asked t.now end slots.old }
    ensures answers { Answers t.now end slots.old result }
    ensures kept { slots.new ≡ slots.old }
{
    holds(t, end, slots)
}
