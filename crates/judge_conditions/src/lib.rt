// The conditions of a judgement, and what is known where they pass; no code.
#![tactic(auto)]
