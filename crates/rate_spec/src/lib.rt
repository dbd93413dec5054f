// The definition of the bit allocation and its laws: specs/ and proofs/. There is no code here.
#![tactic(auto)]
