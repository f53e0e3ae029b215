// The conjuncts of a predicate, as a search tests them one by one: what each one's nodes give, and which variables it does not depend on. Definitions and theorems, no code.
#![tactic(auto)]
