// Scaled values within the clip: that every scaled value of a finite spectrum is, and what follows for its code and its bits. Laws only.
#![tactic(auto)]
