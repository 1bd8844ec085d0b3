// What a comparison of two recordings answers, whoever makes it; no code.
#![tactic(auto)]
