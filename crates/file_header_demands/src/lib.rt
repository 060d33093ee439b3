// The theorems of the file header there and back; no code.
#![tactic(auto)]
