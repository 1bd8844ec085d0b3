// Drafts, the words of a form before they are numbered: what a slot stands for; no code.
#![tactic(auto)]
