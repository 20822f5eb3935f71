// The overlap rule of a triangle and a box is all in specs/.
#![tactic(auto)]
