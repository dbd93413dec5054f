// Nothing to run: what is shown here is in proofs.
#![tactic(auto)]
