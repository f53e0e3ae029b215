// The obligations, the order of the search, the calls, the runs and the demands: definitions and theorems, no code.
#![tactic(auto)]
