// What is written is read back, field by field: the laws that readers, field writers and demand 3 rest on, as theorems; no code.
#![tactic(auto)]
