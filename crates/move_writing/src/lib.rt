// The move of a state of accepted words, or the start, written to the front of a slice of any length, in rooms of the size that it can need.
#![tactic(auto)]

ghost use Rattle.table.specs.Answers.{OrNone};
ghost use Rattle.move_roots.specs.Roots.{Drawn};
ghost use Rattle.move_rooms.specs.Rooms.{Moved};

// It has no more words than the draft has slots, so no more of the result is lent. That the function calls itself also keeps the arrays of
// the rooms out of its frame.
pub fn write(
    words: &[u32],
    bytes: &[u8],
    starts: &[u16],
    sample: u32,
    state: usize,
    word: usize,
    class: usize,
    res: &mut [u32],
) -> Option<usize>
    requires { Drawn words.now bytes.now starts.now state word class }
    ensures { OrNone (λ n. Moved words.now state sample res.old res.new n) result }
{
    let slots = 7 * words.len() + 7;
    if slots < res.len() {
        return write(
            words,
            bytes,
            starts,
            sample,
            state,
            word,
            class,
            &mut res[..slots],
        );
    }
    if words.len() <= 64 {
        return move_rooms::of::<455, 514, 1030>(
            words, bytes, starts, sample, state, word, class, res,
        );
    }
    if words.len() <= 512 {
        return move_rooms::of::<3591, 3591, 7184>(
            words, bytes, starts, sample, state, word, class, res,
        );
    }
    if words.len() <= 4096 {
        return move_rooms::of::<28679, 32768, 32768>(
            words, bytes, starts, sample, state, word, class, res,
        );
    }
    move_rooms::of::<114688, 114688, 32768>(words, bytes, starts, sample, state, word, class, res)
}
