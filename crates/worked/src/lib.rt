// The worked examples of document 01, computed by the definitions; no code.
#![tactic(auto)]
