// The checks of a table's words in rising order.
#![tactic(auto)]

pub mod words;
