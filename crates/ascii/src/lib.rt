// Characters as bytes, for specs and proofs.
#![tactic(auto)]
