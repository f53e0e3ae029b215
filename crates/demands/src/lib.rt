// The demands over the calls: theorems alone.
#![tactic(auto)]
