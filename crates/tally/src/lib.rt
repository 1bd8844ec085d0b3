// The tally of judgements: how many were made, and how many of them held at the first position.
#![tactic(auto)]

ghost use Rattle.std.specs.Prelude.{◌≡◌};
ghost use Rattle.tally.specs.Tallies.{none_judged, is_full, tally_after};

#[repr(C)]
#[derive(Clone, Copy)]
pub struct Tally {
    pub judged: u32,
    pub held: u32,
}

// The desk that a judgement names: how many tallies there are, its number among them, counted from 0, and its tally; any tally where the number is that of none.
#[derive(Clone, Copy)]
pub struct Desk {
    pub desks: usize,
    pub number: usize,
    pub tally: Tally,
}

impl Tally {
    pub fn new() -> Self
        ensures { result ≡ none_judged }
    {
        Tally { judged: 0, held: 0 }
    }

    // Condition 17.
    pub fn full(self) -> bool
        ensures { result ≡ is_full self }
    {
        self.judged == u32::MAX || self.held > self.judged
    }

    pub fn after(self, held: bool) -> Self
        ensures { result ≡ tally_after self held }
    {
        if self.full() {
            return self;
        }
        Tally {
            judged: self.judged + 1,
            held: self.held + u32::from(held),
        }
    }
}
