// Types of terms and predicates, from the end of their nodes.
#![tactic(auto)]

pub mod types;
