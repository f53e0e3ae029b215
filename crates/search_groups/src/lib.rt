// Groups of variables, and the conjuncts of predicates.
#![tactic(auto)]

pub mod columns;
pub mod conjuncts;
pub mod contexts;
pub mod groups;

use conjuncts::FIRSTS;
use form::node::NUMBERS;
use groups::GROUPS;

// A dossier as the reader leaves it for the evaluator: the table of its terms and predicates, the rows of its conjuncts, where those of each predicate begin,
// the groups of its variables; and how many operations it has.
#[derive(Clone, Copy)]
pub struct Dossier<'a> {
    pub table: &'a [u16; NUMBERS],
    pub rows: &'a [u16; NUMBERS],
    pub firsts: &'a [u16; FIRSTS],
    pub groups: &'a [u16; GROUPS],
    pub operations: usize,
}
