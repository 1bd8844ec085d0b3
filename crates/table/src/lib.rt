// Rules as tables of 32-bit words: the kinds of words by name, the limits of a table, and the answers of steps that make one.
#![tactic(auto)]

pub mod answer;
pub mod kinds;
pub mod settings;
