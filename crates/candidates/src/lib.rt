// Weights to try, by which a triangle may reach a box, and theorems about them; no code.
#![tactic(auto)]
