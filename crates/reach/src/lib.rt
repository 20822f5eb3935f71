// Theorems about the overlap rule; no code.
#![tactic(auto)]
