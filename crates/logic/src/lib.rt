// Linear temporal logic over looped recordings: definitions in specs/, theorems in proofs/. No code.
#![tactic(auto)]
