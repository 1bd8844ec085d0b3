// The class bytes of a table whose words are plain and well formed: bit b of a word's byte for the class of bit b.
#![tactic(auto)]

pub mod fill;
