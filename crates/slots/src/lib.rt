// A slot of a draft.
#![tactic(auto)]

pub mod slot;
