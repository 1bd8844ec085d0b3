// What a judgement answers.
use refusals::Refusal;
use tally::Tally;

// Whether the rule holds at the first position, at how many positions, and the first position at which it fails.
#[derive(Clone, Copy)]
pub struct Judgement {
    pub holds: bool,
    pub moments: usize,
    pub failing: usize,
}

// The answer, with the named desk's tally after it.
#[derive(Clone, Copy)]
pub struct Judged {
    pub answer: Result<Judgement, Refusal>,
    pub tally: Tally,
}
