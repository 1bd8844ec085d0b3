// What the program is given: its arguments and its input.
#![tactic(auto)]

pub mod argument;
pub mod input;
