// What the move call answers of accepted words, in arrays of the size that what is kept of them can need.
#![tactic(auto)]

ghost use Rattle.std.specs.Prelude.{◌≤◌, ◌<◌, ◌≡◌, true, length};
ghost use Rattle.std.specs.Prelude.{Ok, Err};
ghost use Rattle.table.specs.Checks.{checked};
ghost use Rattle.move_answers.specs.Answered.{Answered};

use move_answers::answer;
use refusals::Refusal;

// The answer of accepted words, with room for what is kept of them. A number past the words' own asks no more than that. That the function
// calls itself also keeps the arrays of the larger rooms out of its frame: the compiler joins no function with large arrays to one that calls itself.
pub fn sized(
    words: &[u32],
    state: usize,
    sample: u32,
    driven: usize,
    most: usize,
    res: &mut [u32],
) -> Result<usize, Refusal>
    requires { checked true 16383 words.now ≡ Ok tt }
    ensures { Answered words.now state sample driven res.old res.new result }
{
    if words.len() < most {
        return sized(words, state, sample, driven, words.len(), res);
    }
    if words.len() <= 64 {
        return of::<64, 65>(words, state, sample, driven, res);
    }
    if words.len() <= 512 {
        return of::<512, 513>(words, state, sample, driven, res);
    }
    of::<16383, 16384>(words, state, sample, driven, res)
}

fn of<const BYTES: usize, const STARTS: usize>(
    words: &[u32],
    state: usize,
    sample: u32,
    driven: usize,
    res: &mut [u32],
) -> Result<usize, Refusal>
    requires { (checked true 16383 words.now ≡ Ok tt) × (length words.now ≤ BYTES) × (length words.now < STARTS) × (BYTES ≤ 16383) × (STARTS ≤ 16384) }
    ensures { Answered words.now state sample driven res.old res.new result }
{
    let mut bytes = [0u8; BYTES];
    let mut starts = [0u16; STARTS];
    answer(words, state, sample, driven, &mut bytes, &mut starts, res)
}
