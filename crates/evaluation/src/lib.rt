// What the nodes of the table are worth, by numbers, and that this is what terms and predicates mean: definitions and theorems, no code.
#![tactic(auto)]
