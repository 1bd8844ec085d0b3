// The rows of a table's words, one after the other: definitions and laws; no code.
#![tactic(auto)]
