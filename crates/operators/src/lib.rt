// What is written to the row of a word.
#![tactic(auto)]

pub mod operator;
