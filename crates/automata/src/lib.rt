// Alternating automata over samples, their runs and what they accept; no code.
#![tactic(auto)]
