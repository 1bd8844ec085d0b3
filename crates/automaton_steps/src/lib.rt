// The calls of a watching automaton as steps: the states of a table, and the move of a state; no code.
#![tactic(auto)]
