// The slots of one word in the draft of a move, where it is U, W, R or M; move_slots has their layout.
#![tactic(auto)]

ghost use Rattle.std.specs.Prelude.{◌+◌, ◌*◌, ◌<◌, ◌≡◌, length};
ghost use Rattle.word_states.specs.States.{Small};
ghost use Rattle.temporal_slots.specs.Slots as moves;

use slots::slot;
use word_states::Held;

// The place among the three of the one class that U, W, R or M has.
fn lane(h: Held) -> usize
    ensures { (result ≡ moves.lane h) × (result < 3) }
{
    match (h.sigma, h.pi) {
        (Some(_), _) => 0,
        (None, Some(_)) => 1,
        (None, None) => 2,
    }
}

// U and W: the inner kind is and, the outer one or; R and M: the other way round. The class is the one at place i.
fn moved(
    draft: &mut [u64],
    j: usize,
    i: usize,
    h: Held,
    inner: u32,
    outer: u32,
    left: usize,
    right: usize,
)
    requires { (7 * j + 6 < length draft.old) × (j < 16384) × (i < 3) × (inner < 16) × (outer < 16) × (left < j) × (right < j) }
    ensures { draft.new ≡ moves.moved_slots draft.old j i h inner outer left right }
{
    draft[7 * j + 3] = slot::pack(inner, 7 * left + 4 + i, 7 * j + i);
    let s = slot::pack(outer, 7 * right + 4 + i, 7 * j + 3);
    move_slots::by_class(draft, 7 * j + 4, h, s, s, s)
}

pub fn fixpoint(
    draft: &mut [u64],
    j: usize,
    h: Held,
    inner: u32,
    outer: u32,
    left: usize,
    right: usize,
)
    requires { (7 * j + 6 < length draft.old) × (j < 16384) × Small h × (inner < 16) × (outer < 16) × (left < j) × (right < j) }
    ensures { draft.new ≡ moves.fixpoint_slots draft.old j h inner outer left right }
{
    move_slots::states(&mut *draft, j, h);
    moved(draft, j, lane(h), h, inner, outer, left, right)
}
