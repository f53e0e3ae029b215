// Variables that do not matter: no test of some searches of a part mentions them. Of the state before only; a test of the state after does not read them.
// Form 5: that u is one of the five searches: as in `plans`.
#![tactic(auto)]

pub mod keys;

ghost use Rattle.std.specs.Prelude.{◌+◌, ◌<◌, ◌≤◌};
ghost use Rattle.idle_variables.specs.IdlePromises.{TestSays, LevelSays, SearchSays, SearchesSay, PlanAsked, MaskSays};

use mentions::Mention;
use plans::PartSearch;
use points::masks::mask_of;
use points::plan::LEVELS;
use points::slots::AFTER;

// How many searches a plan has.
const SEARCHES: usize = 5;

// A variable by its slot, and the search whose tests may mention it.
#[derive(Clone, Copy)]
struct Variable<'a> {
    search: &'a PartSearch<'a>,
    slot: usize,
    ghost low: { slot < 22 },
    ghost planned: { PlanAsked search.now.plan.now },
}

impl Variable<'_> {
    // Does a test not depend on it?
    fn idle_test(&self, e: usize) -> bool
        ensures { TestSays self.now.search.now.table.now e self.now.slot result }
    {
        if e % 2 == AFTER {
            return true;
        }
        let mention = Mention {
            table: self.search.table,
            slot: self.slot,
        };
        mention.free_pred(e / 2)
    }

    // Does no test of a level?
    fn idle_level(&self, u: usize, l: usize) -> bool
        requires { (u < 5) × (l < 12) }
        ensures { LevelSays self.now.search.now.table.now self.now.search.now.plan.now u l self.now.slot result }
    {
        self.search.tests(u, l).all(
            |k|
                requires { k < 20560 }
            { self.idle_test(usize::from(self.search.plan[k])) },
        )
    }

    // Does no test of the search u?
    fn idle_search(&self, u: usize) -> bool
        requires { u < 5 }
        ensures { SearchSays self.now.search.now.table.now self.now.search.now.plan.now u self.now.slot result }
    {
        (0..LEVELS).all(|l| self.idle_level(u, l))
    }

    // Does no test of the searches from u on?
    fn idle_searches(&self, u: usize) -> bool
        ensures { SearchesSay self.now.search.now.table.now self.now.search.now.plan.now u self.now.slot result }
    {
        (u..SEARCHES).all(|v| self.idle_search(v))
    }
}

// The m variables from the slot `first` on as bits, the first one's lowest: set where no test of the searches from u on depends on the variable.
pub fn idle_of(s: &PartSearch<'_>, u: usize, first: usize, m: usize) -> u64
    requires m_bound { first + m ≤ 22 }
    requires plan_asked { PlanAsked s.now.plan.now }
    ensures { MaskSays s.now.table.now s.now.plan.now u first m result }
{
    mask_of(
        m,
        |k|
            requires { (first + k < 22) × PlanAsked s.now.plan.now }
        {
            let variable = Variable {
                search: s,
                slot: first + k,
            };
            variable.idle_searches(u)
        },
    )
}
