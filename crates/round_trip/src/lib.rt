// What is written is read, and what is read is written again: theorems; no code.
#![tactic(auto)]
