// What a text declares: definitions, and theorems on them; no code.
#![tactic(auto)]
