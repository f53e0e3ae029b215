// The searches of each part find its tests: from the rows of the predicates and the plan's levels to the numbers of bindings. Theorems, no code.
#![tactic(auto)]
