// The WAV reader's theorems, and its definition worked out on inputs; no code.
#![tactic(auto)]
