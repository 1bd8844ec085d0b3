// One byte of a text: what it makes of the words so far.
#![tactic(auto)]

pub mod reader;
