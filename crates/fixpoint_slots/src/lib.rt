// The slots of U, W, R or M and of its step by a sample, with the inner word that the step needs.
#![tactic(auto)]

ghost use Rattle.std.specs.Prelude.{◌+◌, ◌*◌, ◌<◌, ◌≡◌, length};
ghost use Rattle.after_slots.specs.Slots as after;

use after_slots::store;

// U and W: the inner kind is and, the outer one or; R and M: the other way round.
pub fn fixpoint(
    draft: &mut [u64],
    j: usize,
    kind: u32,
    inner: u32,
    outer: u32,
    left: usize,
    right: usize,
)
    requires { (3 * j + 2 < length draft.old) × (j < 16384) × (kind < 16) × (inner < 16) × (outer < 16) × (left < j) × (right < j) }
    ensures { draft.new ≡ after.fixpoint_slots draft.old j kind inner outer left right }
{
    store(&mut *draft, 3 * j, kind, 3 * left, 3 * right);
    store(&mut *draft, 3 * j + 1, inner, 3 * left + 2, 3 * j);
    store(draft, 3 * j + 2, outer, 3 * right + 2, 3 * j + 1);
}
