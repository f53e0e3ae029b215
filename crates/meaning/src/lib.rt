// The meaning of terms, predicates, states and operations: definitions and theorems, no code.
#![tactic(auto)]
