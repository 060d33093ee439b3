// Theorems that tie the list to the frames: the stage's answers are legal entries, and an entry agrees with its frame.
#![tactic(auto)]
