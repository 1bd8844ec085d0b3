// The claim of demand 3 and its laws; no code.
#![tactic(auto)]
