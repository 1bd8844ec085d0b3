// What numbering needs of a slot next.
#![tactic(auto)]

ghost use Rattle.std.specs.Prelude.{◌≡◌, ◌<◌, get_or};
ghost use Rattle.table.specs.Node as node;
ghost use Rattle.slots.specs.Slot as slots;
ghost use Rattle.slot_turns.specs.Turn.{arity, turn_of, Slotted, Turnable};

use slots::slot;

// An operand that has no number yet, or the slot's word, once its operands have theirs.
#[derive(Clone, Copy)]
pub enum Turn {
    Operand(usize),
    Word(u32),
}

// The number of slot i, or 0 where it has none yet: the numbers stand in a lent slice, as they are.
fn number_of(numbers: &[u16], i: usize) -> usize
    requires { Slotted numbers.now i }
    ensures { (result ≡ get_or numbers.now i 0) × (result < 16384) }
{
    numbers[i] as usize
}

// How many operands a word of a kind has.
fn operands(kind: u32) -> u32
    requires { (0 < kind) × (kind < 16) }
    ensures { result ≡ arity (node.shape kind) }
{
    match kind {
        1..=4 => 0,
        7 | 12..=14 => 1,
        _ => 2,
    }
}

// The left operand comes first.
pub fn next(s: u64, numbers: &[u16]) -> Turn
    requires { Turnable (slots.kind s) (slots.left s) (slots.right s) numbers.now }
    ensures { result ≡ turn_of s numbers.now }
{
    let kind = slot::kind(s);
    let left = slot::left(s);
    let right = slot::right(s);
    match operands(kind) {
        0 => Turn::Word(word::pack(kind, 0, right)),
        1 => {
            let n = number_of(numbers, right);
            if n != 0 {
                return Turn::Word(word::pack(kind, 0, n));
            }
            Turn::Operand(right)
        }
        _ => {
            let a = number_of(numbers, left);
            if a == 0 {
                return Turn::Operand(left);
            }
            let b = number_of(numbers, right);
            if b == 0 {
                return Turn::Operand(right);
            }
            Turn::Word(word::pack(kind, a, b))
        }
    }
}
