// Bindings and sizes: numbers 12 and 13 of document 01, over the nodes of a dossier.
#![tactic(auto)]

pub mod measures;
