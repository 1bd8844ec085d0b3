// How a formula becomes a table, word after word as first needed: laws of `build`, in proofs/. No code.
#![tactic(auto)]
