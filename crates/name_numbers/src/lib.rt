// The names of a text, numbered by the first symbol that has their letters.
#![tactic(auto)]

pub mod numbering;
