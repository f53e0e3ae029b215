// One part of the check: labelled loops over the variable groups, each stepping to the next candidate of its group. What is passed over passes: one of the premises is false there, or
// it lies in a block that passes as one did that was looked at whole. Places are counted by arithmetic.
// Form 3: these are the labelled loops of document 01's last section, and the next candidate of a group is what its search answers: an iterator over the answers would have to own the
// slots and the memory, which the loops inside write too.
// Form 5: the slots are lent to be written beside a search that is only read (nest_steps/src/lib.rt). `from` and `end` come from one call, in `parts::sweep_part`, and go to two calls of
// `is_within`: as a `Range`, the five divisions and differences with `from` and the three tests of `end` would each name its field.
#![tactic(auto)]

ghost use Rattle.std.specs.Prelude.{◌≤◌};
ghost use Rattle.nest_steps.specs.PartTests.{places};
ghost use Rattle.nest_steps.specs.NestPromises.{NestLent};
ghost use Rattle.nest.specs.SweepPromises.{SweepAnswers};

use idle_variables::keys::{KEYS, is_within, make_mark};
use nest_steps::blocks::{
    PASSES, concrete_group, masks_of, next_open_abstract, next_open_concrete, pair_mark,
    whole_group,
};
use nest_steps::candidates::{next_after, next_output};
use nest_steps::known::{KNOWN, Numbers};
use nest_steps::{next_input, passes_again, ready};
use plans::PartSearch;

// Looks at the bindings of a part from the place `from` up to the place `end`, and stops at the first that fails: its place.
pub fn sweep(
    s: &PartSearch<'_>,
    from: usize,
    end: usize,
    slots: &mut [[i64; 64]; 2],
) -> Option<usize>
    requires from_le_end { (from ≤ end) × (end ≤ places s.now.part) }
    requires nest_asked { NestLent s.now slots.old }
    ensures { SweepAnswers s.now.table.now s.now.plan.now s.now.cells.now s.now.part from end result }
{
    let p = &s.part;
    // How many places a binding of each group has: of outputs as many as `primes` has bindings, of inputs by_input, ..
    let by_input = p.outputs.bindings * p.primes.bindings;
    let by_concrete = p.inputs.bindings * by_input;
    let by_abstract = p.concretes.bindings * by_concrete;
    let mut known = [0u16; KNOWN];
    let mut memo = [0u64; memo::NUMBERS];
    let masks = masks_of(s);
    let wholes = whole_group(p, masks);
    let concretes = concrete_group(p, masks);
    let mut done = [0u16; KEYS];
    let mut seen = [0u16; KEYS];
    let mut failing = None;
    let mut a = next_open_abstract(s, from / by_abstract, masks, slots, &mut memo, &done);
    'abstracts: while a < p.abstracts.bindings {
        let first = a * by_abstract;
        if end <= first {
            break 'abstracts;
        }
        let mark = pair_mark(s, masks, a);
        let mask = ready(s, slots, &mut memo);
        let start = (from / by_concrete).saturating_sub(a * p.concretes.bindings);
        let mut c = next_open_concrete(s, start, masks, mark, slots, &mut memo, &seen);
        while c < p.concretes.bindings {
            let x = a * p.concretes.bindings + c;
            let within = x * by_concrete;
            if end <= within {
                break 'abstracts;
            }
            let start = (from / by_input).saturating_sub(x * p.inputs.bindings);
            let mut i = next_input(s, mask, start, slots);
            while i < p.inputs.bindings {
                let y = x * p.inputs.bindings + i;
                let start = (from / p.primes.bindings).saturating_sub(y * p.outputs.bindings);
                let mut o = next_output(s, start, slots, &mut memo);
                while o < p.outputs.bindings {
                    let z = y * p.outputs.bindings + o;
                    let start = from.saturating_sub(z * p.primes.bindings);
                    let mut k = next_after(s, start, slots, &mut memo);
                    while k < p.primes.bindings {
                        let place = z * p.primes.bindings + k;
                        if end <= place {
                            break 'abstracts;
                        }
                        let b = Numbers { a, c, i, o, k };
                        if !passes_again(s, b, slots, &mut known, &mut memo) {
                            failing = Some(place);
                            break 'abstracts;
                        }
                        k = next_after(s, k + 1, slots, &mut memo);
                    }
                    o = next_output(s, o + 1, slots, &mut memo);
                }
                i = next_input(s, mask, i + 1, slots);
            }
            if is_within(from, end, within, by_concrete) {
                make_mark(s.cells, concretes, c, mark, &mut seen);
            }
            c = next_open_concrete(s, c + 1, masks, mark, slots, &mut memo, &seen);
        }
        if is_within(from, end, first, by_abstract) {
            make_mark(s.cells, wholes, a, PASSES, &mut done);
        }
        a = next_open_abstract(s, a + 1, masks, slots, &mut memo, &done);
    }
    failing
}
