// The slots of one word in the draft of a move, where it is a constant, an and, an or, or a letter; and those of a word's states and classes. Word j has seven:
// 7j to 7j + 2, the word's combination by Sigma-1, Pi-1 and a class of the second level; 7j + 3, the inner word that the moves of U, W, R and M need;
// 7j + 4 to 7j + 6, the word moved by those classes.
#![tactic(auto)]

ghost use Rattle.std.specs.Prelude.{◌+◌, ◌*◌, ◌<◌, ◌≡◌, length};
ghost use Rattle.word_states.specs.States.{Small};
ghost use Rattle.move_slots.specs.Slots as moves;

use slots::slot;
use state_slots::of_state;
use word_states::Held;

pub fn constant(draft: &mut [u64], j: usize, kind: u32)
    requires { (7 * j + 6 < length draft.old) × (j < 16384) × (kind < 16) }
    ensures { draft.new ≡ moves.constant_slots draft.old j kind }
{
    let s = slot::pack(kind, 0, 0);
    state_slots::three(&mut *draft, 7 * j, s, s, s);
    state_slots::three(draft, 7 * j + 4, s, s, s)
}

// A kind over the three slots from `left` and from `right` on.
fn over(draft: &mut [u64], i: usize, kind: u32, left: usize, right: usize)
    requires { (i + 2 < length draft.old) × (kind < 16) × (left + 2 < 1048576) × (right + 2 < 1048576) }
    ensures { draft.new ≡ moves.over_slots draft.old i kind left right }
{
    let x = slot::pack(kind, left, right);
    let y = slot::pack(kind, left + 1, right + 1);
    let z = slot::pack(kind, left + 2, right + 2);
    state_slots::three(draft, i, x, y, z)
}

// And, or.
pub fn junction(draft: &mut [u64], j: usize, kind: u32, left: usize, right: usize)
    requires { (7 * j + 6 < length draft.old) × (j < 16384) × (kind < 16) × (left < j) × (right < j) }
    ensures { draft.new ≡ moves.junction_slots draft.old j kind left right }
{
    over(&mut *draft, 7 * j, kind, 7 * left, 7 * right);
    over(draft, 7 * j + 4, kind, 7 * left + 4, 7 * right + 4)
}

// The slots of a word's classes, from slot i on.
pub fn by_class(draft: &mut [u64], i: usize, h: Held, x: u64, y: u64, z: u64)
    requires { (i + 2 < length draft.old) × (i + 1 < 1048576) }
    ensures { draft.new ≡ moves.held_slots draft.old i h x y z }
{
    state_slots::put(
        draft,
        i,
        h.sigma.and(Some(x)),
        h.pi.and(Some(y)),
        h.further.and(Some(z)),
    )
}

// The states of a word.
pub fn states(draft: &mut [u64], j: usize, h: Held)
    requires { (7 * j + 6 < length draft.old) × (j < 16384) × Small h }
    ensures { draft.new ≡ moves.state_slots draft.old j h }
{
    let x = of_state(h.sigma);
    let y = of_state(h.pi);
    let z = of_state(h.further);
    state_slots::put(draft, 7 * j, x, y, z)
}

// A letter, which moves to a constant.
pub fn letter(draft: &mut [u64], j: usize, h: Held, constant: u32)
    requires { (7 * j + 6 < length draft.old) × (j < 16384) × Small h × (constant < 16) }
    ensures { draft.new ≡ moves.letter_slots draft.old j h constant }
{
    states(&mut *draft, j, h);
    let s = slot::pack(constant, 0, 0);
    by_class(draft, 7 * j + 4, h, s, s, s)
}
