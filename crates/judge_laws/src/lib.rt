// The laws of a judgement's answer; no code.
#![tactic(auto)]
