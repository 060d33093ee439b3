// Request A10, the finest level: that no smaller level and no larger boundary was left unused, as theorems; no code.
#![tactic(auto)]
