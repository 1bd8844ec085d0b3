// The class byte of an operator from the bytes of its operands.
#![tactic(auto)]

pub mod byte;
