// Plans: for each of the five searches of a part its variables, and the conjuncts that it asks by level. Level 0: no variable of the search is mentioned; level l: the
// last one mentioned is number l - 1, so that a conjunct is asked as soon as that one has its value. A conjunct is one number: twice the end of its nodes, and 1 more where it is
// asked of the after state.
// Form 5: that u is one of the five searches is asked by five functions here (of `search` in what it asks of room), two of idle_variables and two of seek: an enum would be turned back into `HEAD * u` where a number of the plan
// is named, and `idle_searches` goes over all of them from one on. That the rows are those of operation j with n outputs (`OperationRows`) is asked by the two public functions and by
// `premises`, which both call: a struct of dossier, j and n would be made for one call of each, and their promises name these three one by one.
#![tactic(auto)]

ghost use Rattle.std.specs.Prelude.{◌≡◌, ◌+◌, ◌<◌, ◌≤◌, length};
ghost use Rattle.points.specs.Searches.{mark_in};
ghost use Rattle.plans.specs.PlansByNumber.{level_of, entries_from, entries_of, search_entries, Rows, no_asking};
ghost use Rattle.plans.specs.PlanPromises.{RowsOf, CommonRows, OperationRows, InitialisationPlan, ApplicabilityPlan, CorrectnessPlan};
ghost use Rattle.plans.specs.PlanWriting.{asking, asked_in, RowIn, Appended, Room, Laying, Headed, Searched, Between, many_by, over_by, after_by, step_by, Premises};

use points::plan::MET;
use points::{plan, slots};
use search_groups::conjuncts::ROW;
use search_groups::contexts::{CONCRETE_SIDE, OPERATIONS, SIDES};
use search_groups::{Dossier, columns, contexts};
pub use slot_carriers::groups::GroupSize;
use std::ops::Range;

// How many numbers a plan has: those of the five searches, and room for their tests.
pub const PLAN: usize = 20560;

// What it depends on whether that is there which must be: on the concrete state and the inputs alone (initialisation, applicability); where the part goes over
// the concrete primed variables (correctness), on all that it goes over but the concrete state.
// Form 1: two cases of their own, no Option or Result.
#[derive(Clone, Copy)]
pub enum Conclusion {
    OfState,
    OfStep,
}

// The sizes of the groups that a part goes over: abstract, concrete, inputs, outputs, concrete primed; then of the two searches for a step of the abstract
// operation (`readying`) and for what must be there (`meeting`).
#[derive(Clone, Copy)]
pub struct Part {
    pub abstracts: GroupSize,
    pub concretes: GroupSize,
    pub inputs: GroupSize,
    pub outputs: GroupSize,
    pub primes: GroupSize,
    pub readying: GroupSize,
    pub meeting: GroupSize,
    pub conclusion: Conclusion,
}

// What the searches of a part go over: the reader's table, the plans of the searches, the cells of the variables, and the part's sizes.
#[derive(Clone, Copy)]
pub struct PartSearch<'a> {
    pub table: &'a [u16; 16384],
    pub plan: &'a [u16; PLAN],
    pub cells: &'a [u32; 9216],
    pub part: Part,
}

impl PartSearch<'_> {
    // The places of the tests of level l of the search u.
    pub fn tests(&self, u: usize, l: usize) -> Range<usize>
        requires { (u < 5) × (l < 12) }
        ensures from { result.start ≡ mark_in self.now.plan.now u l }
        ensures to { result.end ≡ mark_in self.now.plan.now u (l + 1) }
    {
        let place = plan::HEAD * u + l;
        usize::from(self.plan[place])..usize::from(self.plan[place + 1])
    }
}

// A predicate that a search asks: where its rows begin, and how many they are; asked of the state before or after; the column of the first group, how many variables that
// group has, the column of the second.
// Form 1: the side is one of the two arrays of slots (`points::slots::BEFORE`, `AFTER`), the parity of a test in the plan, where it is added to twice the end of the test's nodes; as an enum
// it would be turned back into that number there.
#[derive(Clone, Copy)]
pub struct Asked {
    pub from: usize,
    pub many: usize,
    pub side: usize,
    pub first: usize,
    pub count: usize,
    pub second: usize,
}

// The level of the conjunct whose row begins at r.
fn level_of(d: &Dossier<'_>, r: usize, p: Asked) -> usize
    requires { RowIn d.now.rows.now (asking p) r }
    ensures { result ≡ level_of d.now.rows.now (asking p) r }
{
    let last = usize::from(d.rows[r + p.second]);
    if last != 0 {
        return p.count + last;
    }
    if p.first == columns::NO_COLUMN {
        return 0;
    }
    usize::from(d.rows[r + p.first])
}

// How many rows a context has.
// Form 5: each of the fifteen predicates in the plans below is of another context than the one before it. A type of contexts whose rows begin and end would take the clause from these four
// functions and stand as one more call, `over(d, context(d, c), ..)`, in each of the fifteen, where the fact would be shown as it is now.
fn rows_of(d: &Dossier<'_>, c: usize) -> usize
    requires { Between d.now.firsts.now c }
    ensures { result ≡ many_by d.now.firsts.now c }
{
    usize::from(d.firsts[c + 1] - d.firsts[c]) / ROW
}

// The predicate of a context over one group of variables.
fn over(d: &Dossier<'_>, c: usize, side: usize, second: usize) -> Asked
    requires { Between d.now.firsts.now c }
    ensures { asking result ≡ over_by d.now.firsts.now c side second }
{
    Asked {
        from: usize::from(d.firsts[c]),
        many: rows_of(d, c),
        side,
        first: columns::NO_COLUMN,
        count: 0,
        second,
    }
}

// The predicate of the state after, behind n outputs.
fn after(d: &Dossier<'_>, c: usize, n: usize, second: usize) -> Asked
    requires { Between d.now.firsts.now c }
    ensures { asking result ≡ after_by d.now.firsts.now c n second }
{
    Asked {
        count: n,
        ..over(d, c, slots::AFTER, second)
    }
}

// An operation's predicate, over n outputs and a group of primed variables.
fn step(d: &Dossier<'_>, c: usize, n: usize, second: usize) -> Asked
    requires { Between d.now.firsts.now c }
    ensures { asking result ≡ step_by d.now.firsts.now c n second }
{
    Asked {
        first: columns::OUTPUTS,
        count: n,
        ..over(d, c, slots::BEFORE, second)
    }
}

// A plan that is being written, and the place behind its last test. Where the tests of a level begin stands among the plan's first numbers.
// Form 5: the dossier goes with the writer through seven of its eight methods: as a field of what is lent to be written, each of the eight would promise that it is the same dossier behind
// it, as it does of the plan, and the functions that make a writer would show it after each call for what the next one asks of the rows.
#[derive(Drop)]
struct Writer<'a> {
    out: &'a mut [u16; PLAN],
    at: usize,
    ghost long: { length out.now ≡ 20560 },
}

impl<'a> Writer<'a> {
    // Appends the conjunct whose row begins at r, if it has the level l.
    fn append_row(&mut self, d: &Dossier<'_>, r: usize, p: Asked, l: usize)
        requires row_in { RowIn d.now.rows.now (asking p) r }
        requires r_bound { self.old.at + length (entries_from d.now.rows.now (asking p) l 1 r) ≤ 20560 }
        ensures same_plan { self.new.out.ghost_name ≡ self.old.out.ghost_name }
        ensures appended { Appended (entries_from d.now.rows.now (asking p) l 1 r) self.old.at self.old.out.now self.new.out.now self.new.at }
    {
        if level_of(d, r, p) != l {
            return;
        }
        self.out[self.at] = (2 * usize::from(d.rows[r + columns::END]) + p.side) as u16;
        self.at += 1;
    }

    // Appends the conjuncts of a predicate that have the level l.
    // Form 3: by `step_by(ROW)` over `p.from..p.from + ROW * p.many` the same product and sum would stand in the range's end: no shorter.
    fn append(&mut self, d: &Dossier<'_>, p: Asked, l: usize)
        requires rows { Rows d.now.rows.now (asking p) }
        requires l_bound { self.old.at + length (entries_of d.now.rows.now (asking p) l) ≤ 20560 }
        ensures same_plan { self.new.out.ghost_name ≡ self.old.out.ghost_name }
        ensures appended { Appended (entries_of d.now.rows.now (asking p) l) self.old.at self.old.out.now self.new.out.now self.new.at }
    {
        for i in 0..p.many {
            self.append_row(d, p.from + ROW * i, p, l);
        }
    }

    // Those of all predicates of a search.
    fn append_level(&mut self, d: &Dossier<'_>, ps: &[Asked], l: usize)
        requires few { length ps.now ≤ 3 }
        requires rows { (Rows d.now.rows.now (asked_in ps.now 0)) × (Rows d.now.rows.now (asked_in ps.now 1)) × (Rows d.now.rows.now (asked_in ps.now 2)) }
        requires l_bound { self.old.at + length (search_entries d.now.rows.now (asked_in ps.now 0) (asked_in ps.now 1) (asked_in ps.now 2) l) ≤ 20560 }
        ensures same_plan { self.new.out.ghost_name ≡ self.old.out.ghost_name }
        ensures appended { Appended (search_entries d.now.rows.now (asked_in ps.now 0) (asked_in ps.now 1) (asked_in ps.now 2) l) self.old.at self.old.out.now self.new.out.now self.new.at }
    {
        for p in ps {
            self.append(d, *p, l);
        }
    }

    // The tests of the search u over up to three predicates.
    fn search(&mut self, d: &Dossier<'_>, u: usize, ps: &[Asked])
        requires few { length ps.now ≤ 3 }
        requires room { Room d.now.rows.now u (asked_in ps.now 0) (asked_in ps.now 1) (asked_in ps.now 2) self.old.at }
        ensures same_plan { self.new.out.ghost_name ≡ self.old.out.ghost_name }
        ensures laying { Laying d.now.rows.now u (asked_in ps.now 0) (asked_in ps.now 1) (asked_in ps.now 2) self.old.at self.old.out.now self.new.out.now self.new.at }
    {
        self.out[plan::HEAD * u] = self.at as u16;
        for l in 0..plan::LEVELS {
            self.append_level(d, ps, l);
            self.out[plan::HEAD * u + (l + 1)] = self.at as u16;
        }
    }

    // The slots of its variables: n from the slot `first` on, then those from the slot `second` on.
    fn head(&mut self, u: usize, first: usize, n: usize, second: usize)
        requires { (u < 5) × (first < 64) × (n < 64) × (second < 64) }
        ensures same_plan { self.new.out.ghost_name ≡ self.old.out.ghost_name }
        ensures same_place { self.new.at ≡ self.old.at }
        ensures headed { Headed u first n second self.old.out.now self.new.out.now }
    {
        self.out[plan::HEAD * u + plan::FIRST_SLOT] = first as u16;
        self.out[plan::HEAD * u + plan::FIRST_COUNT] = n as u16;
        self.out[plan::HEAD * u + plan::SECOND_SLOT] = second as u16;
    }

    // A search without variables and predicates.
    fn nothing(&mut self, d: &Dossier<'_>, u: usize)
        requires { (u < 5) × (80 ≤ self.old.at) × (self.old.at ≤ 20560) }
        ensures same_plan { self.new.out.ghost_name ≡ self.old.out.ghost_name }
        ensures laying { Laying d.now.rows.now u no_asking no_asking no_asking self.old.at self.old.out.now self.new.out.now self.new.at }
    {
        self.search(d, u, &[]);
    }

    // Concrete after states, behind n outputs, that the concrete operation of context c allows.
    fn steps(&mut self, d: &Dossier<'_>, c: usize, n: usize, u: usize)
        requires u_bound { (u < 5) × (n ≤ 3) × (80 ≤ self.old.at) × (self.old.at + 4096 ≤ 20560) }
        requires rows_of { (RowsOf d.now.rows.now d.now.firsts.now 1) × (RowsOf d.now.rows.now d.now.firsts.now c) }
        ensures same_plan { self.new.out.ghost_name ≡ self.old.out.ghost_name }
        ensures searched { Searched d.now.rows.now u 19 n 22 (after_by d.now.firsts.now 1 n 3) (step_by d.now.firsts.now c n 6) no_asking self.old.at self.old.out.now self.new.out.now self.new.at }
    {
        self.head(u, slots::OUTPUTS, n, slots::CONCRETE_PRIMED);
        self.search(
            d,
            u,
            &[
                after(d, contexts::CONCRETE_STATE, n, columns::CONCRETE),
                step(d, c, n, columns::CONCRETE_PRIMED),
            ],
        );
    }

    // The first three searches of an operation: j its number, n how many outputs it has.
    fn premises(&mut self, d: &Dossier<'_>, j: usize, n: usize)
        requires begun { self.old.at ≡ 80 }
        requires rows { OperationRows d.now.rows.now d.now.firsts.now j n }
        ensures same_plan { self.new.out.ghost_name ≡ self.old.out.ghost_name }
        ensures premises { Premises d.now.rows.now d.now.firsts.now j n self.new.out.now self.new.at }
    {
        self.head(plan::STATES, slots::ABSTRACT, 0, slots::ABSTRACT);
        self.search(
            d,
            plan::STATES,
            &[over(
                d,
                contexts::ABSTRACT_STATE,
                slots::BEFORE,
                columns::ABSTRACT,
            )],
        );
        self.head(plan::RELATED, slots::CONCRETE, 0, slots::CONCRETE);
        self.search(
            d,
            plan::RELATED,
            &[
                over(
                    d,
                    contexts::CONCRETE_STATE,
                    slots::BEFORE,
                    columns::CONCRETE,
                ),
                over(d, contexts::RETRIEVE, slots::BEFORE, columns::CONCRETE),
            ],
        );
        self.head(plan::READY, slots::OUTPUTS, n, slots::ABSTRACT_PRIMED);
        self.search(
            d,
            plan::READY,
            &[
                after(d, contexts::ABSTRACT_STATE, n, columns::ABSTRACT),
                step(d, OPERATIONS + SIDES * j, n, columns::ABSTRACT_PRIMED),
            ],
        );
    }
}

// The plans of initialisation: concrete initial states; abstract initial states that are related.
pub fn plan_initialisation(d: &Dossier<'_>, plan: &mut [u16; PLAN])
    requires { CommonRows d.now.rows.now d.now.firsts.now }
    ensures { InitialisationPlan d.now.rows.now d.now.firsts.now plan.new }
{
    let mut w = Writer {
        out: plan,
        at: plan::TESTS,
    };
    w.nothing(d, plan::STATES);
    w.head(plan::RELATED, slots::CONCRETE, 0, slots::CONCRETE);
    w.search(
        d,
        plan::RELATED,
        &[
            over(
                d,
                contexts::CONCRETE_STATE,
                slots::BEFORE,
                columns::CONCRETE,
            ),
            over(d, contexts::CINIT, slots::BEFORE, columns::CONCRETE),
        ],
    );
    w.nothing(d, plan::READY);
    w.nothing(d, plan::STEPS);
    w.head(MET, slots::ABSTRACT, 0, slots::ABSTRACT);
    w.search(
        d,
        MET,
        &[
            over(
                d,
                contexts::ABSTRACT_STATE,
                slots::BEFORE,
                columns::ABSTRACT,
            ),
            over(d, contexts::AINIT, slots::BEFORE, columns::ABSTRACT),
            over(d, contexts::RETRIEVE, slots::BEFORE, columns::ABSTRACT),
        ],
    );
}

// Applicability: some concrete step.
pub fn plan_applicability(d: &Dossier<'_>, j: usize, n: usize, plan: &mut [u16; PLAN])
    requires { OperationRows d.now.rows.now d.now.firsts.now j n }
    ensures { ApplicabilityPlan d.now.rows.now d.now.firsts.now plan.new j n }
{
    let mut w = Writer {
        out: plan,
        at: plan::TESTS,
    };
    w.premises(d, j, n);
    w.nothing(d, plan::STEPS);
    w.steps(d, OPERATIONS + SIDES * j + CONCRETE_SIDE, n, MET);
}

// Correctness: some abstract after state that is related and reached.
pub fn plan_correctness(d: &Dossier<'_>, j: usize, n: usize, plan: &mut [u16; PLAN])
    requires { OperationRows d.now.rows.now d.now.firsts.now j n }
    ensures { CorrectnessPlan d.now.rows.now d.now.firsts.now plan.new j n }
{
    let mut w = Writer {
        out: plan,
        at: plan::TESTS,
    };
    w.premises(d, j, n);
    w.steps(d, OPERATIONS + SIDES * j + CONCRETE_SIDE, n, plan::STEPS);
    w.head(MET, slots::ABSTRACT_PRIMED, 0, slots::ABSTRACT_PRIMED);
    w.search(
        d,
        MET,
        &[
            over(d, contexts::ABSTRACT_STATE, slots::AFTER, columns::ABSTRACT),
            over(d, contexts::RETRIEVE, slots::AFTER, columns::ABSTRACT),
            over(
                d,
                OPERATIONS + SIDES * j,
                slots::BEFORE,
                columns::ABSTRACT_PRIMED,
            ),
        ],
    );
}
