// What a scanner's file becomes, in words: theorems; no code.
#![tactic(auto)]
