// The samples of paper 01, and inputs that are easily got wrong: tables of questions with the numbers that answer them, in specs/; no code.
#![tactic(auto)]
