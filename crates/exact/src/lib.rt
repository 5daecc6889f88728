// The exact book: definitions and theorems; no code.
#![tactic(auto)]
