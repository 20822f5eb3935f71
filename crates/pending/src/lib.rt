// Laws of a map that is filled by pieces, from a list of pending blocks; no code.
#![tactic(auto)]
