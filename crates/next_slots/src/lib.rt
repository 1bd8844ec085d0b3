// The slots of one word in the draft of a move, where it is X; move_slots has their layout.
#![tactic(auto)]

ghost use Rattle.std.specs.Prelude.{◌+◌, ◌*◌, ◌<◌, ◌≡◌, length};
ghost use Rattle.word_states.specs.States.{Small};
ghost use Rattle.next_slots.specs.Slots as moves;

use word_states::Held;

// X, which moves to its operand's combination.
fn operand(draft: &mut [u64], j: usize, h: Held, right: usize)
    requires { (7 * j + 6 < length draft.old) × (j < 16384) × (right < j) }
    ensures { draft.new ≡ moves.operand_slots draft.old j h right }
{
    let x = draft[7 * right];
    let y = draft[7 * right + 1];
    let z = draft[7 * right + 2];
    move_slots::by_class(draft, 7 * j + 4, h, x, y, z)
}

pub fn next(draft: &mut [u64], j: usize, h: Held, right: usize)
    requires { (7 * j + 6 < length draft.old) × (j < 16384) × Small h × (right < j) }
    ensures { draft.new ≡ moves.next_slots draft.old j h right }
{
    move_slots::states(&mut *draft, j, h);
    operand(draft, j, h, right)
}
