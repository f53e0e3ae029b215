// Types and faults by numbers: which types fit, and which fault stands where they do not.
#![tactic(auto)]

use crate::entries::Kind;
use crate::faults::LeastFault;

pub mod entries;
pub mod faults;
pub mod kinds;
#[cfg(test)]
mod tests;

// The type of a tree, its least fault, with the place by symbols, and where its nodes begin.
#[derive(Clone, Copy)]
pub struct Seen {
    pub kind: Kind,
    pub fault: LeastFault,
    pub start: usize,
}

// A node's place in the text, and its two numbers.
#[derive(Clone, Copy)]
pub struct Node {
    pub place: u16,
    pub a: u16,
    pub b: u16,
}
