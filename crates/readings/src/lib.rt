// What the reader's arrays hold of a dossier, for the search: the rows of its predicates and the groups of its variables. Definitions and theorems, no code.
#![tactic(auto)]
