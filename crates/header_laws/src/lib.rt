// What was written back of a Request or Reply header reads again: definitions and theorems, no code.
#![tactic(auto)]
