// The move of a state of accepted words, or the start, from the number of the state, written to the front of a slice.
#![tactic(auto)]

ghost use Rattle.table.specs.Answers.{OrNone};
ghost use Rattle.move_placing.specs.Placed.{Placed, Known};

use move_writing::write;

// The move at the front of the result, and its length, where it fits and there are not too many states.
pub fn place(
    words: &[u32],
    bytes: &[u8],
    starts: &[u16],
    total: usize,
    state: usize,
    sample: u32,
    res: &mut [u32],
) -> Option<usize>
    requires { Known words.now bytes.now starts.now total state }
    ensures { OrNone (λ n. Placed words.now state sample res.old res.new n) result }
{
    if total > 16383 {
        return None;
    }
    if state == 0 {
        return write(words, bytes, starts, sample, 0, 0, 0, res);
    }
    let word = state_numbers::find(words, starts, state);
    let class = state_numbers::class_of(words, bytes, starts, state, word);
    write(words, bytes, starts, sample, state, word, class, res)
}
