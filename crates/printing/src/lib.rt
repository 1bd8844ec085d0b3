// What the program prints: a refusal, and a form as words or as a text.
#![tactic(auto)]

pub mod printer;
pub mod report;
mod terminal;
