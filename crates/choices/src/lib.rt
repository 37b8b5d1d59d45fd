// Choices by a test: how definitions branch, and laws of tests. There is no code here.
#![tactic(auto)]
