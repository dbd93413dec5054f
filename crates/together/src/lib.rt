// What holds between calls of different crates: specs and proofs. There is nothing to run.
#![tactic(auto)]
