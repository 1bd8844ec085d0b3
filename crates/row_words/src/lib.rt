// Rows a word at a time: 64 positions in one number.
#![tactic(auto)]

pub mod connective;
pub mod row_word;
