// Declared names: given sets, variables, parameters.
#![tactic(auto)]

pub mod declared;
