// Theorems about the columns of a grid and the overlap rule; no code.
#![tactic(auto)]
