// Values have their types and sizes: definitions and theorems, no code.
#![tactic(auto)]
