// The pairs of states that both machines of a dossier reach side by side, each with the shortest list of operations with inputs that leads to it. Layer by layer: the pairs of layer 1 are
// the initial states; those of layer n + 1 are what the pairs of layer n lead to and what has no mark yet. There is no queue, and no layer is kept but in the marks.
// Form 3: in the loops by `while` the next place is what a search answers that writes the memory: in the closure of an iterator nothing is told of what it changes, as seen at
// `step_facts::runs::step_from`, and `remembers` says what the memory is behind the loop.
// Form 5: that the pairs have room is asked of five functions: as the invariant of a struct around `StepSearch` it would be opened by a line of its own in
// each, and its `Model` is as long as the clauses are. Memory and marks are lent for a call, and in one struct each function would have to promise the
// other's part of it unchanged. The number of an operation and that of a layer, which go together
// through `spread_pairs`, `spread_pair` and `spread_inputs`, would be a struct with their bounds, which are constants, as its invariant: with its `Model` it is as long as what these three
// ask of the two, half a line each, and each would open it. The bound of a pair, of a concrete binding or of a binding of the inputs
// is made of sizes of the search's part: as in `step_searches`.
#![tactic(auto)]

ghost use Rattle.std.specs.Prelude.{◌*◌, ◌<◌, ◌≤◌};
ghost use Rattle.memo.specs.MemoPromises.{Memo};
ghost use Rattle.step_searches.specs.StepPromises.{Below, PrepareAsked, OpenAsked};
ghost use Rattle.reached_pairs.specs.Reached.{layer_of, first_mark};
ghost use Rattle.reached_pairs.specs.PairPromises.{MatchesSpread, StepsSpread, InputsSpread, PairSpread, PairsSpread, OperationSpread, LayerSpread, Layers, PairsAre, PairsFit};
ghost use Rattle.reached_pairs.specs.PairPromises.{OpenPairsAsked, MatchesBegun, StatesBegun, Begun, ReachAnswers};

use crate::marks::{INITIAL, Mark, NONE, PAIRS, count_layer, is_of, mark_from, put_mark};
use plans::PartSearch;
use search_groups::Dossier;
use step_searches::{
    PartArrays, ReadDossier, StepSearch, Stepped, next_concrete_step, next_initial_match,
    next_initial_state, next_matching_state, prepare, prepare_opening,
};

pub mod marks;

// The most layers that are made: less than a mark has room for.
const LAYERS: u64 = 4096;

// Beside a concrete step: the abstract states after that match it.
fn spread_matches(
    s: &StepSearch<'_>,
    b: Stepped,
    m: Mark,
    memo: &mut [u64; memo::NUMBERS],
    marks: &mut [Mark; PAIRS],
)
    requires below { Below s.now.part b × (0 < layer_of m) }
    requires room { s.now.part.abstracts.bindings * s.now.part.concretes.bindings ≤ 262144 }
    requires memo { Memo s.now.table.now memo.old }
    ensures grown { MatchesSpread s.now.table.now s.now.plan.now s.now.cells.now s.now.part b m marks.old marks.new }
    ensures remembers { Memo s.now.table.now memo.new }
{
    let p = s.search.part;
    let mut next = next_matching_state(s, b, 0, memo);
    while let Some(x) = next {
        put_mark(marks, x * p.concretes.bindings + b.k, m);
        next = next_matching_state(s, b, x + 1, memo);
    }
}

// From the pair x with the i-th inputs: the concrete steps.
fn spread_steps(
    s: &StepSearch<'_>,
    x: usize,
    i: usize,
    m: Mark,
    memo: &mut [u64; memo::NUMBERS],
    marks: &mut [Mark; PAIRS],
)
    requires x_bound { (x < s.now.part.abstracts.bindings * s.now.part.concretes.bindings) × (i < s.now.part.inputs.bindings) × (0 < layer_of m) }
    requires room { s.now.part.abstracts.bindings * s.now.part.concretes.bindings ≤ 262144 }
    requires memo { Memo s.now.table.now memo.old }
    ensures grown { StepsSpread s.now.table.now s.now.plan.now s.now.cells.now s.now.part x i m marks.old marks.new }
    ensures remembers { Memo s.now.table.now memo.new }
{
    let p = s.search.part;
    let a = x / p.concretes.bindings;
    let c = x % p.concretes.bindings;
    let mut next = next_concrete_step(s, c, i, 0, memo);
    while let Some(r) = next {
        let b = Stepped {
            a,
            i,
            o: r / p.concretes.bindings,
            k: r % p.concretes.bindings,
        };
        spread_matches(s, b, m, memo, marks);
        next = next_concrete_step(s, c, i, r + 1, memo);
    }
}

// From the pair x of layer n: all inputs of operation j.
fn spread_inputs(
    s: &StepSearch<'_>,
    x: usize,
    j: usize,
    n: u64,
    memo: &mut [u64; memo::NUMBERS],
    marks: &mut [Mark; PAIRS],
)
    requires x_bound { (x < s.now.part.abstracts.bindings * s.now.part.concretes.bindings) × (j < 16) × (n < 4096) }
    requires room { s.now.part.abstracts.bindings * s.now.part.concretes.bindings ≤ 262144 }
    requires memo { Memo s.now.table.now memo.old }
    ensures grown { InputsSpread s.now.table.now s.now.plan.now s.now.cells.now s.now.part x j n s.now.part.inputs.bindings marks.old marks.new }
    ensures remembers { Memo s.now.table.now memo.new }
{
    let p = s.search.part;
    for i in 0..p.inputs.bindings {
        let m = mark_from(x, j, i, n);
        spread_steps(s, x, i, m, memo, marks);
    }
}

// The pair x, if it is of layer n.
fn spread_pair(
    s: &StepSearch<'_>,
    x: usize,
    j: usize,
    n: u64,
    memo: &mut [u64; memo::NUMBERS],
    marks: &mut [Mark; PAIRS],
)
    requires x_bound { (x < s.now.part.abstracts.bindings * s.now.part.concretes.bindings) × (j < 16) × (n < 4096) }
    requires room { s.now.part.abstracts.bindings * s.now.part.concretes.bindings ≤ 262144 }
    requires memo { Memo s.now.table.now memo.old }
    ensures grown { PairSpread s.now.table.now s.now.plan.now s.now.cells.now s.now.part x j n marks.old marks.new }
    ensures remembers { Memo s.now.table.now memo.new }
{
    if !is_of(marks, x, n) {
        return;
    }
    spread_inputs(s, x, j, n, memo, marks)
}

// All pairs of layer n.
fn spread_pairs(
    s: &StepSearch<'_>,
    j: usize,
    n: u64,
    memo: &mut [u64; memo::NUMBERS],
    marks: &mut [Mark; PAIRS],
)
    requires j_bound { (j < 16) × (0 < n) × (n < 4096) }
    requires room { s.now.part.abstracts.bindings * s.now.part.concretes.bindings ≤ 262144 }
    requires memo { Memo s.now.table.now memo.old }
    ensures { PairsSpread s.now.table.now s.now.plan.now s.now.cells.now s.now.part j n (s.now.part.abstracts.bindings * s.now.part.concretes.bindings) marks.old marks.new }
{
    let p = s.search.part;
    let pairs = p.abstracts.bindings * p.concretes.bindings;
    for x in 0..pairs {
        spread_pair(s, x, j, n, memo, marks);
    }
}

// What operation j leads to from the pairs of layer n.
fn spread(d: &Dossier<'_>, j: usize, n: u64, marks: &mut [Mark; PAIRS])
    requires n_nonzero { (0 < n) × (n < 4096) }
    requires prepare_asked { PrepareAsked d.now.table.now d.now.rows.now d.now.firsts.now d.now.groups.now j }
    requires pairs_fit { PairsFit d.now.table.now d.now.rows.now d.now.firsts.now d.now.groups.now }
    ensures { OperationSpread d.now.table.now d.now.rows.now d.now.firsts.now d.now.groups.now j n marks.old marks.new }
{
    let mut made = PartArrays::blank();
    let ready = prepare(d, j, &mut made);
    let s = StepSearch {
        search: made.search(d.table, ready),
    };
    let mut memo = [0u64; memo::NUMBERS];
    spread_pairs(&s, j, n, &mut memo, marks)
}

// What all operations lead to from there.
fn spread_layer(d: &ReadDossier<'_>, n: u64, marks: &mut [Mark; PAIRS])
    requires n_nonzero { (0 < n) × (n < 4096) }
    requires pairs_fit { PairsFit d.now.table.now d.now.rows.now d.now.firsts.now d.now.groups.now }
    ensures { LayerSpread d.now.table.now d.now.rows.now d.now.firsts.now d.now.groups.now d.now.operations n marks.old marks.new }
{
    for j in 0..d.arrays.operations {
        spread(&d.arrays, j, n, marks);
    }
}

// One layer after the other. The whole search is done where a layer is empty; it is given up where the layers or the budget, a number of pairs, do not suffice.
fn spread_all(d: &ReadDossier<'_>, budget: usize, pairs: usize, marks: &mut [Mark; PAIRS]) -> bool
    requires pairs_are { PairsAre d.now.table.now d.now.rows.now d.now.firsts.now d.now.groups.now pairs }
    requires layers { Layers d.now.table.now d.now.rows.now d.now.firsts.now d.now.groups.now d.now.operations 1 marks.old }
    ensures { ReachAnswers d.now.table.now d.now.rows.now d.now.firsts.now d.now.groups.now d.now.operations marks.new result }
{
    let mut left = budget;
    for n in 1..LAYERS {
        let many = count_layer(marks, pairs, n);
        if many == 0 {
            return true;
        }
        if left < many {
            return false;
        }
        left -= many;
        spread_layer(d, n, marks);
    }
    false
}

// With the concrete initial state c: the abstract initial states that are related to it.
fn begin_with(
    s: &PartSearch<'_>,
    c: usize,
    memo: &mut [u64; memo::NUMBERS],
    marks: &mut [Mark; PAIRS],
)
    requires c_lt_nc { c < s.now.part.concretes.bindings }
    requires open_pairs_asked { OpenPairsAsked s.now.table.now s.now.plan.now s.now.cells.now s.now.part }
    requires memo { Memo s.now.table.now memo.old }
    ensures grown { MatchesBegun s.now.table.now s.now.plan.now s.now.cells.now s.now.part c first_mark marks.old marks.new }
    ensures remembers { Memo s.now.table.now memo.new }
{
    let mut next = next_initial_match(s, c, 0, memo);
    while let Some(a) = next {
        put_mark(marks, a * s.part.concretes.bindings + c, INITIAL);
        next = next_initial_match(s, c, a + 1, memo);
    }
}

// All pairs of initial states.
fn begin_all(s: &PartSearch<'_>, memo: &mut [u64; memo::NUMBERS], marks: &mut [Mark; PAIRS])
    requires open_pairs_asked { OpenPairsAsked s.now.table.now s.now.plan.now s.now.cells.now s.now.part }
    requires memo { Memo s.now.table.now memo.old }
    ensures { StatesBegun s.now.table.now s.now.plan.now s.now.cells.now s.now.part marks.old marks.new }
{
    let mut next = next_initial_state(s, 0, memo);
    while let Some(c) = next {
        begin_with(s, c, memo, marks);
        next = next_initial_state(s, c + 1, memo);
    }
}

// The first layer; how many pairs there are, where there is room for them.
fn begin(d: &Dossier<'_>, marks: &mut [Mark; PAIRS]) -> Option<usize>
    requires open_asked { OpenAsked d.now.table.now d.now.rows.now d.now.firsts.now d.now.groups.now }
    ensures { Begun d.now.table.now d.now.rows.now d.now.firsts.now d.now.groups.now marks.old marks.new result }
{
    let mut made = PartArrays::blank();
    let ready = prepare_opening(d, &mut made);
    let pairs = ready.meeting.bindings * ready.concretes.bindings;
    if PAIRS < pairs {
        return None;
    }
    let s = made.search(d.table, ready);
    let mut memo = [0u64; memo::NUMBERS];
    begin_all(&s, &mut memo, marks);
    Some(pairs)
}

// Every pair that is reached gets its mark; says whether the search was whole. Not where there are more pairs or more layers than there is room for, or more pairs to go on from than the
// budget: then a pair without a mark may be reached too.
pub fn reach(d: &ReadDossier<'_>, budget: usize, marks: &mut [Mark; PAIRS]) -> bool
    ensures { ReachAnswers d.now.table.now d.now.rows.now d.now.firsts.now d.now.groups.now d.now.operations marks.new result }
{
    marks.fill(NONE);
    let Some(pairs) = begin(&d.arrays, marks) else {
        return false;
    };
    spread_all(d, budget, pairs, marks)
}
