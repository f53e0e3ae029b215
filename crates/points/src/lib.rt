// Points: of each slot the number of its variable's value, and what tests and searches come to at a point. Definitions and theorems; the layouts that the search's arrays have.
#![tactic(auto)]

pub mod masks;
pub mod plan;
pub mod slots;
