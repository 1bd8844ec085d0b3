// What holds of the normal form's table, whoever makes it: laws of the definitions, in proofs/. No code.
#![tactic(auto)]
