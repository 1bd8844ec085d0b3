// The head of a case.
use table::settings::Limits;
use tally::Tally;

// What a head of 19 words says. The listed words follow it, of a text a byte a word, then the listed samples.
#[derive(Clone, Copy)]
pub struct Head {
    // 1 check, 2 class, 3 plain form, 4 normal form, 5 whole way, 6 judge, 7 row call, 8 text, 9 dialect, 10 comparison, 11 step by a sample,
    // 12 states of the automaton, 13 move of a state.
    pub step: u32,
    // How many words of a chain the table has after its header.
    pub chain: usize,
    // How many words are listed: the header and those after the chain, or of a comparison the first recording's samples.
    pub listed: usize,
    // A word that is replaced, the header being number 0, and what it is replaced by.
    pub replaced: Option<(usize, u32)>,
    pub limits: Limits,
    // The rooms of the lent slices.
    pub room: usize,
    pub second: usize,
    // Of the check: whether plain tables only, and the limit.
    pub plain: bool,
    pub limit: usize,
    // The number of samples.
    pub samples: usize,
    pub start: usize,
    pub driven: usize,
    // How many desks have a tally, the number of the desk that is named, and its tally.
    pub desks: usize,
    pub desk: usize,
    pub tally: Tally,
    // The seed of the samples; none if they are listed.
    pub seed: Option<u32>,
}

// Some words stand for another thing in some steps.
impl Head {
    // Of a comparison: the first recording's loop start.
    pub fn first_start(&self) -> usize {
        self.room
    }

    // Of a comparison: the first recording's driven count.
    pub fn first_driven(&self) -> usize {
        self.second
    }

    // Of a step by a sample, and of a move.
    pub fn sample(&self) -> u32 {
        self.tally.judged
    }

    // Of a move: the state's number.
    pub fn state(&self) -> usize {
        self.desk
    }
}

// By the order of the words. Of the word that is replaced the number is one more, the header being the first, and 0 stands for none, as of the seed.
impl From<[u32; 19]> for Head {
    fn from(words: [u32; 19]) -> Head {
        let [
            step,
            chain,
            listed,
            replaced,
            word,
            written,
            fixpoints,
            room,
            second,
            plain,
            limit,
            samples,
            start,
            driven,
            desks,
            desk,
            judged,
            held,
            seed,
        ] = words;
        Head {
            step,
            chain: chain as usize,
            listed: listed as usize,
            replaced: (replaced as usize).checked_sub(1).map(|i| (i, word)),
            limits: Limits {
                written: written as usize,
                fixpoints: fixpoints as usize,
            },
            room: room as usize,
            second: second as usize,
            plain: plain == 1,
            limit: limit as usize,
            samples: samples as usize,
            start: start as usize,
            driven: driven as usize,
            desks: desks as usize,
            desk: desk as usize,
            tally: Tally { judged, held },
            seed: (seed != 0).then_some(seed),
        }
    }
}
