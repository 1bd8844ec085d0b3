// The draft of the start, in one rising pass. Word j has three slots: 3j and 3j + 1, its states of a Sigma class and of a Pi class, and 3j + 2, the
// word's combination.
#![tactic(auto)]

ghost use Rattle.std.specs.Prelude.{◌+◌, ◌*◌, ◌<◌, ◌≡◌, length};
ghost use Rattle.word_states.specs.States.{Small};
ghost use Rattle.start_draft.specs.Filling.{state_slots, Room, Filled, Next};

use slots::slot;
use state_slots::of_state;
use word_states::Held;

// A proper word.
fn states(draft: &mut [u64], j: usize, h: Held)
    requires { (3 * j + 2 < length draft.old) × (j < 16384) × Small h }
    ensures { draft.new ≡ state_slots draft.old j h }
{
    let x = of_state(h.sigma);
    let y = of_state(h.pi);
    state_slots::put(draft, 3 * j, x, y, None)
}

// Word j, after those before it.
fn step_word(words: &[u32], bytes: &[u8], starts: &[u16], draft: &mut [u64], j: usize)
    requires { Next words.now bytes.now starts.now draft.old j }
    ensures { Filled words.now draft.new j }
{
    let w = source::read(words, j);
    let kind = w.kind;
    let left = w.left;
    let right = w.right;
    match kind {
        1..=2 => {
            slot::store(draft, 3 * j + 2, kind, 0, 0);
        }
        5..=6 => {
            slot::store(draft, 3 * j + 2, kind, 3 * left + 2, 3 * right + 2);
        }
        _ => states(
            draft,
            j,
            word_states::starting(bytes[j - 1], starts[j] as usize),
        ),
    }
}

// All words.
pub fn fill(words: &[u32], bytes: &[u8], starts: &[u16], draft: &mut [u64])
    requires { Room words.now bytes.now starts.now draft.old }
    ensures { Filled words.now draft.new (length words.now) }
{
    for j in 1..=words.len() {
        step_word(words, bytes, starts, &mut *draft, j);
    }
}
