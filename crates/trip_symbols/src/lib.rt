// The round trip of the range coder's symbols: what is written and closed without error is read back. The laws are in proofs/.
#![tactic(auto)]
