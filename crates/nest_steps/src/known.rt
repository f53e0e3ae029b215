// Conclusions that are known to be true: inside one sweep what was found is not searched for again. Only truths are kept, since the first false one ends the sweep.
ghost use Rattle.std.specs.Prelude.{◌≡◌, true, get_or};
ghost use Rattle.nest_steps.specs.Remembering.{key_of, mark_of, Inside, Noted};

use plans::{Conclusion, Part};

// How many places there are for marks; a conclusion whose key is behind them is searched for each time.
pub const KNOWN: usize = 65536;

// The numbers of a binding's groups: abstract, concrete, inputs, outputs, concrete primed.
#[derive(Clone, Copy)]
pub struct Numbers {
    pub a: usize,
    pub c: usize,
    pub i: usize,
    pub o: usize,
    pub k: usize,
}

// Where a conclusion has its mark: by what it depends on but for the abstract state.
pub(crate) fn key_of(p: &Part, b: Numbers) -> usize
    requires { Inside p.now b }
    ensures { result ≡ key_of p.now b }
{
    match p.conclusion {
        Conclusion::OfState => b.c * p.inputs.bindings + b.i,
        Conclusion::OfStep => (b.i * p.outputs.bindings + b.o) * p.primes.bindings + b.k,
    }
}

// The mark: the abstract state, where the conclusion depends on it.
// Form 1: 0 is the mark of nothing. An Option of a mark takes four bytes for two, and so does one of a `NonZeroU16` as Rattle has it (by `size_of`), so that the 128 KiB of marks on the stack of
// `nest::sweep` would be 256, and the bound that tests/stack measures would go up.
pub(crate) fn mark_of(p: &Part, b: Numbers) -> u16
    requires { Inside p.now b }
    ensures { result ≡ mark_of p.now b }
{
    match p.conclusion {
        Conclusion::OfState => 1,
        Conclusion::OfStep => (b.a + 1) as u16,
    }
}

// Does the mark stand there?
// Form 1: as `mark_of`.
pub(crate) fn is_known(known: &[u16; KNOWN], key: usize, mark: u16) -> bool
    ensures { result ≡ true → get_or known.now key 0 ≡ mark }
{
    key < KNOWN && known[key] == mark
}

// Makes the mark there, if there is a place for it.
// Form 1: as `mark_of`.
pub(crate) fn remember(known: &mut [u16; KNOWN], key: usize, mark: u16)
    ensures { Noted key mark known.old known.new }
{
    if key < KNOWN {
        known[key] = mark;
    }
}
