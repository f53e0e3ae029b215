// The parts of a check by the numbers of their groups' bindings, and what the reader's arrays hold of them. Definitions and theorems, no code.
#![tactic(auto)]
