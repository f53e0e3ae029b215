// Number 12: bindings of a state's carriers, of an operation's inputs and outputs.
#![tactic(auto)]

pub mod bindings;
