// Theorems about the bar behind a cell; no code.
#![tactic(auto)]
