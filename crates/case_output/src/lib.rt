// How the case runner prints.
#![tactic(auto)]

pub mod made;
pub mod show;
pub mod sum;
