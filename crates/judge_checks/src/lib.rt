// What a judgement is refused for, its table's faults included.
#![tactic(auto)]

pub mod checks;
