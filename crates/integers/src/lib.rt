// Laws of whole numbers, for proofs; no code.
#![tactic(auto)]
