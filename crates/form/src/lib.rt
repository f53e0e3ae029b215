// What a dossier is by form alone (numbers 4 to 7 of document 01): definitions and theorems, and the numbers of its nodes by name.
#![tactic(auto)]

pub mod name_endings;
pub mod node;
pub mod operator_codes;
pub mod shapes;
