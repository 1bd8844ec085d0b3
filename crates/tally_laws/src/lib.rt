// What the tallies of the desks show of the calls that were made; no code.
#![tactic(auto)]
