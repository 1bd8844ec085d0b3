// Words put at the end of a table, or used again.
#![tactic(auto)]

pub mod put;
