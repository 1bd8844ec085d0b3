// The slots of a word's states in a draft: slot i for a first class and slot i + 1 for a second one, each false where the word is not in the class, and
// slot i + 2 for the or of those that there are, or else for a third class.
#![tactic(auto)]

ghost use Rattle.std.specs.Prelude.{◌+◌, ◌<◌, ◌≡◌, length, IfSome};
ghost use Rattle.state_slots.specs.Slots as slots;

use slots::slot;

// The slot of a state by its number.
pub fn of_state(number: Option<usize>) -> Option<u64>
    requires { IfSome number (λ n. n < 1048576) }
    ensures { result ≡ slots.state_slot number }
{
    number.map(|n| slot::pack(3, 0, n))
}

// The slot, or else that of false.
fn given(slot: Option<u64>) -> u64
    ensures { result ≡ slots.given_slot slot }
{
    slot.unwrap_or(slot::pack(1, 0, 0))
}

// What stands at slot i + 2.
fn joined(i: usize, first: Option<u64>, second: Option<u64>, third: Option<u64>) -> u64
    requires { i + 1 < 1048576 }
    ensures { result ≡ slots.joined_slot i first second third }
{
    match (first, second) {
        (Some(_), Some(_)) => slot::pack(6, i, i + 1),
        (Some(x), None) | (None, Some(x)) => x,
        (None, None) => given(third),
    }
}

pub fn three(draft: &mut [u64], i: usize, x: u64, y: u64, z: u64)
    requires { i + 2 < length draft.old }
    ensures { draft.new ≡ slots.three draft.old i x y z }
{
    draft[i] = x;
    draft[i + 1] = y;
    draft[i + 2] = z;
}

// The slots of the classes of a word, each where it is in the class.
pub fn put(draft: &mut [u64], i: usize, first: Option<u64>, second: Option<u64>, third: Option<u64>)
    requires { (i + 2 < length draft.old) × (i + 1 < 1048576) }
    ensures { draft.new ≡ slots.class_slots draft.old i first second third }
{
    let last = joined(i, first, second, third);
    three(draft, i, given(first), given(second), last)
}
