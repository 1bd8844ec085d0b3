// The automaton of a plain table as words: its states, its start and its moves, by their numbers; no code.
#![tactic(auto)]
