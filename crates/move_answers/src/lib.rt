// What the move call answers of accepted words: the state and the sample are checked, and the move is written, or 12.
#![tactic(auto)]

ghost use Rattle.state_numbers.specs.Numbered.{Room};
ghost use Rattle.move_placing.specs.Placed.{Known};
ghost use Rattle.move_answers.specs.Answered.{Given, Answered};

use move_checks::check_asked;
use move_placing::place;
use refusals::Refusal;

// The states are numbered; then 6, 22 and 21, or the move.
pub fn answer(
    words: &[u32],
    state: usize,
    sample: u32,
    driven: usize,
    bytes: &mut [u8],
    starts: &mut [u16],
    res: &mut [u32],
) -> Result<usize, Refusal>
    requires { Room words.now bytes.old starts.old }
    ensures { Answered words.now state sample driven res.old res.new result }
{
    let total = state_numbers::fill(words, &mut *bytes, &mut *starts);
    check_asked(words, total, state, driven)?;
    give(words, &*bytes, &*starts, total, state, sample, res)
}

// The move, or 12.
fn give(
    words: &[u32],
    bytes: &[u8],
    starts: &[u16],
    total: usize,
    state: usize,
    sample: u32,
    res: &mut [u32],
) -> Result<usize, Refusal>
    requires { Known words.now bytes.now starts.now total state }
    ensures { Given words.now state sample res.old res.new result }
{
    match place(words, bytes, starts, total, state, sample, &mut *res) {
        Some(n) => Ok(n),
        None => {
            res.fill(0);
            Err(Refusal::ResultTooShort)
        }
    }
}
