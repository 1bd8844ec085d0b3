// What is made of a formula, by the papers' definitions, and what it means: definitions in specs/, theorems in proofs/. No code.
#![tactic(auto)]
