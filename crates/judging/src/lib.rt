// What a judgement answers and leaves, whoever makes it; no code.
#![tactic(auto)]

pub mod answer;
