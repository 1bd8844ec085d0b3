// The alternating automaton of a formula in Delta-2, and that it accepts what the formula means; no code.
#![tactic(auto)]
