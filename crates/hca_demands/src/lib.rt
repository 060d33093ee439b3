// Demand 3 said of the C calls by numbers and slices, as theorems; no code.
#![tactic(auto)]
