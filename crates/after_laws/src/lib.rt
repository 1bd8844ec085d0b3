// What remains of a rule after one sample, and after many, and its laws; no code.
#![tactic(auto)]
