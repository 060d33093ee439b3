// The definition of the stage, worked out on inputs; no code.
#![tactic(auto)]
