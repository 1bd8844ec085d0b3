// Rules typed as text: what their bytes are to mean, as definitions in specs/, and laws in proofs/. No code.
#![tactic(auto)]
