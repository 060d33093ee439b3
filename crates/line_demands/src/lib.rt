// Request A5, a whole line in one call: what is proved of its definition; no code.
#![tactic(auto)]
