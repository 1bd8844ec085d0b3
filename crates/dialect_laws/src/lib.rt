// What a conversion keeps, and its laws; no code.
#![tactic(auto)]
