// Blocks that pass alike: where two bindings of a state differ only in variables that no inner search mentions, what is inside them passes alike. A block that was looked at as a whole
// is marked by its key, and those with the same key are passed over.
ghost use Rattle.std.specs.Prelude.{◌≡◌, ◌+◌, ◌<◌, ◌≤◌};
ghost use Rattle.idle_variables.specs.KeyPromises.{key_in, KeyAsked};
ghost use Rattle.memo.specs.MemoPromises.{Memo};
ghost use Rattle.nest_steps.specs.NestPromises.{NestLent};
ghost use Rattle.nest_steps.specs.OpenBlocks.{MasksAsked, MasksAnswers, pair_group, concrete_group, whole_group, PairsSeen, WholesSeen, OpenConcrete, OpenAbstract};

use crate::candidates::{next_abstract, next_concrete};
use idle_variables::idle_of;
use idle_variables::keys::{KEYS, KeyGroup, is_marked, key_at};
use plans::{Part, PartSearch};
use points::plan::{READY, RELATED, STEPS};
use points::slots::{ABSTRACT, CONCRETE};
use slot_carriers::SLOTS;

// The mark of an abstract state whose block passes.
// Form 1: 0 is the mark of nothing, as at `known::mark_of`.
pub const PASSES: u16 = 1;

// Which variables do not matter, as bits, the first one's lowest: abstract ones for what is inside the block of a pair of states, and inside that of an abstract state; concrete ones for
// what is inside the block of a pair.
#[derive(Clone, Copy)]
pub struct Masks {
    pub pairs: u64,
    pub wholes: u64,
    pub concretes: u64,
}

// A search that comes before those inside a block is not asked: the premises that it finds hold wherever a block is looked at.
pub fn masks_of(s: &PartSearch<'_>) -> Masks
    requires { MasksAsked s.now.table.now s.now.plan.now s.now.part }
    ensures { MasksAnswers s.now.table.now s.now.plan.now s.now.part result }
{
    let pairs = idle_of(s, READY, ABSTRACT, s.part.abstracts.variables);
    let wholes = idle_of(s, RELATED, ABSTRACT, s.part.abstracts.variables);
    let concretes = idle_of(s, STEPS, CONCRETE, s.part.concretes.variables);
    Masks {
        pairs,
        wholes,
        concretes,
    }
}

// The groups by whose keys blocks are alike: of the abstract state of a pair, of its concrete state, of an abstract state alone.
// Form 2: a function over slot, sizes and mask would be no more than `KeyGroup` itself; each of these is the group of that name of the definitions, and so are the next two.
fn pair_group(p: &Part, m: Masks) -> KeyGroup
    ensures { result ≡ pair_group p.now m }
{
    KeyGroup {
        first: ABSTRACT,
        size: p.abstracts,
        idle: m.pairs,
    }
}

// Form 2: as `pair_group`.
pub fn concrete_group(p: &Part, m: Masks) -> KeyGroup
    ensures { result ≡ concrete_group p.now m }
{
    KeyGroup {
        first: CONCRETE,
        size: p.concretes,
        idle: m.concretes,
    }
}

// Form 2: as `pair_group`.
pub fn whole_group(p: &Part, m: Masks) -> KeyGroup
    ensures { result ≡ whole_group p.now m }
{
    KeyGroup {
        first: ABSTRACT,
        size: p.abstracts,
        idle: m.wholes,
    }
}

// The mark of the pairs with an abstract state: its key, so that one place for each concrete key is enough.
// Form 1: 0 is the mark of nothing, as at `known::mark_of`.
pub fn pair_mark(s: &PartSearch<'_>, m: Masks, a: usize) -> u16
    requires key_asked { KeyAsked s.now.cells.now (pair_group s.now.part m) }
    requires a_lt_na { a < s.now.part.abstracts.bindings }
    ensures { result ≡ key_in s.now.cells.now (pair_group s.now.part m) a + 1 }
{
    let group = pair_group(&s.part, m);
    (key_at(s.cells, group, a) + 1) as u16
}

// The next related concrete state from c on whose block with the abstract state of the mark is not known to pass.
// Form 1: as in `candidates`, the number behind the last where there is none: all blocks before the answer pass.
// Form 2: one function over both states would be handed the search, the group, the mark and what each of them means for what is passed over, and be no plainer than these two loops.
// Form 3: the next place is what the search answers; an iterator over its answers would have to own the slots and the memory that the caller goes on with.
pub fn next_open_concrete(
    s: &PartSearch<'_>,
    c: usize,
    m: Masks,
    mark: u16,
    slots: &mut [[i64; SLOTS]; 2],
    memo: &mut [u64; memo::NUMBERS],
    seen: &[u16; KEYS],
) -> usize
    requires c_le_nc { c ≤ s.now.part.concretes.bindings }
    requires nest_asked { NestLent s.now slots.old }
    requires memo { Memo s.now.table.now memo.old }
    requires pairs_seen { PairsSeen s.now.table.now s.now.plan.now s.now.cells.now s.now.part m seen.now }
    ensures answers { OpenConcrete s.now.table.now s.now.plan.now s.now.cells.now s.now.part m mark c slots.old slots.new result }
    ensures remembers { Memo s.now.table.now memo.new }
{
    let group = concrete_group(&s.part, m);
    let mut from = c;
    while from < s.part.concretes.bindings {
        let d = next_concrete(s, from, slots, memo);
        if !is_marked(s.cells, group, d, mark, seen) {
            return d;
        }
        from = d + 1;
    }
    s.part.concretes.bindings
}

// The next abstract state from a on whose block is not known to pass.
// Form 1: as `next_open_concrete`.
// Form 2: as `next_open_concrete`.
// Form 3: as `next_open_concrete`: the search answers the next place.
pub fn next_open_abstract(
    s: &PartSearch<'_>,
    a: usize,
    m: Masks,
    slots: &mut [[i64; SLOTS]; 2],
    memo: &mut [u64; memo::NUMBERS],
    done: &[u16; KEYS],
) -> usize
    requires a_le_na { a ≤ s.now.part.abstracts.bindings }
    requires nest_asked { NestLent s.now slots.old }
    requires memo { Memo s.now.table.now memo.old }
    requires wholes_seen { WholesSeen s.now.table.now s.now.plan.now s.now.cells.now s.now.part m done.now }
    ensures answers { OpenAbstract s.now.table.now s.now.plan.now s.now.cells.now s.now.part a slots.old slots.new result }
    ensures remembers { Memo s.now.table.now memo.new }
{
    let group = whole_group(&s.part, m);
    let mut from = a;
    while from < s.part.abstracts.bindings {
        let d = next_abstract(s, from, slots, memo);
        if !is_marked(s.cells, group, d, PASSES, done) {
            return d;
        }
        from = d + 1;
    }
    s.part.abstracts.bindings
}
