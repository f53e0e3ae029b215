// Number 13: sizes of terms and predicates, from the end of their nodes.
#![tactic(auto)]

use type_rules::faults::LeastFault;

pub mod sizes;

// The size of a term, its least fault, with the place by symbols, and where its nodes begin. What is no number has the size 0; of a term at fault the size says nothing.
// Form 1: with a Result for size and fault, the lesser fault of two parts is a `LeastFault`, of which its type does not say that there is one: each place with two parts would ask
// that to make an Err.
#[derive(Clone, Copy)]
pub struct Sized {
    pub bound: u32,
    pub fault: LeastFault,
    pub start: usize,
}
