// Names, types, bindings, sizes, and what reading a text is (numbers 8 to 14): definitions, no code.
#![tactic(auto)]
