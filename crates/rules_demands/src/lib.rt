// What the searches find, over any test, and the demands said of the three calls, as theorems; no code.
#![tactic(auto)]
