// The slots of a word and of its step by a sample, each folded as it is stored. Word j has the slots 3j, its own, 3j + 1, the inner word that the step of
// U, W, R or M needs, and 3j + 2, its step. Those of U, W, R and M are `fixpoint_slots`.
#![tactic(auto)]

ghost use Rattle.std.specs.Prelude.{◌+◌, ◌*◌, ◌<◌, ◌≡◌, length};
ghost use Rattle.slots.specs.Slot.{pack};
ghost use Rattle.after_slots.specs.Slots as after;

use slots::slot;

// A word's slot, folded over the slots so far.
pub fn store(draft: &mut [u64], i: usize, kind: u32, left: usize, right: usize)
    requires { (i < length draft.old) × (kind < 16) × (left < 1048576) × (right < 1048576) }
    ensures { draft.new ≡ after.stored draft.old i (pack kind left right) }
{
    let s = folding::of(slot::pack(kind, left, right), &*draft);
    draft[i] = s;
}

// A constant or a letter, and the constant that it becomes.
pub fn leaf(draft: &mut [u64], j: usize, kind: u32, letter: usize, constant: u32)
    requires { (3 * j + 2 < length draft.old) × (j < 16384) × (kind < 16) × (letter < 16384) × (constant < 16) }
    ensures { draft.new ≡ after.leaf_slots draft.old j kind letter constant }
{
    store(&mut *draft, 3 * j, kind, 0, letter);
    store(draft, 3 * j + 2, constant, 0, 0);
}

// And, or.
pub fn junction(draft: &mut [u64], j: usize, kind: u32, left: usize, right: usize)
    requires { (3 * j + 2 < length draft.old) × (j < 16384) × (kind < 16) × (left < j) × (right < j) }
    ensures { draft.new ≡ after.junction_slots draft.old j kind left right }
{
    store(&mut *draft, 3 * j, kind, 3 * left, 3 * right);
    store(draft, 3 * j + 2, kind, 3 * left + 2, 3 * right + 2);
}

// X: what remains is its operand.
pub fn next(draft: &mut [u64], j: usize, right: usize)
    requires { (3 * j + 2 < length draft.old) × (j < 16384) × (right < j) }
    ensures { draft.new ≡ after.next_slots draft.old j right }
{
    store(&mut *draft, 3 * j, 7, 0, 3 * right);
    draft[3 * j + 2] = draft[3 * right];
}
