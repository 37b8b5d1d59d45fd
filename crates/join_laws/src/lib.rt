// Joining over the whole sequence of lines: definitions and theorems, no code.
#![tactic(auto)]
