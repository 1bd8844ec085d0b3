// The draft of a move by a sample, in one rising pass: the slots of each word, by its kind.
#![tactic(auto)]

ghost use Rattle.std.specs.Prelude.{length};
ghost use Rattle.move_draft.specs.Filling.{Room, Filled, Next};

// Word j, after those before it.
fn step_word(
    words: &[u32],
    bytes: &[u8],
    starts: &[u16],
    sample: u32,
    upper: bool,
    draft: &mut [u64],
    j: usize,
)
    requires { Next sample upper words.now bytes.now starts.now draft.old j }
    ensures { Filled sample upper words.now draft.new j }
{
    let w = source::read(words, j);
    let kind = w.kind;
    let left = w.left;
    let right = w.right;
    let h = word_states::moving(bytes[j - 1], starts[j] as usize, upper);
    match kind {
        1..=2 => move_slots::constant(draft, j, kind),
        3..=4 => move_slots::letter(draft, j, h, sample_letters::reading(sample, kind, right)),
        5..=6 => move_slots::junction(draft, j, kind, left, right),
        7 => next_slots::next(draft, j, h, right),
        8..=9 => temporal_slots::fixpoint(draft, j, h, 5, 6, left, right),
        _ => temporal_slots::fixpoint(draft, j, h, 6, 5, left, right),
    }
}

// All words. The class of the second level is Pi-2 where `upper`, else Sigma-2.
pub fn fill(
    words: &[u32],
    bytes: &[u8],
    starts: &[u16],
    sample: u32,
    upper: bool,
    draft: &mut [u64],
)
    requires { Room words.now bytes.now starts.now draft.old }
    ensures { Filled sample upper words.now draft.new (length words.now) }
{
    for j in 1..=words.len() {
        step_word(words, bytes, starts, sample, upper, &mut *draft, j);
    }
}
