// Every predicate of a text that is read is as the evaluator asks: definitions and theorems, no code.
#![tactic(auto)]
