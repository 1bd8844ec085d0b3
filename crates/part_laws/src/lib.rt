// What a part of an unfolded form that holds says of the words that it has chosen; no code.
#![tactic(auto)]
