// What an encoder wrote a decoder reads, and both come to the same bit allocation.
#![tactic(auto)]
