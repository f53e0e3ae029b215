// Contents, declarations, given sets.
#![tactic(auto)]

pub mod contents;
