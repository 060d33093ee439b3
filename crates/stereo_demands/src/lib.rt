// The demands said of the stereo stage, and why it has a limit, as theorems; no code.
#![tactic(auto)]
