// A slot of a draft: a word's kind over the slots of its operands, or with its letter.
ghost use Rattle.std.specs.Prelude.{◌≡◌, ◌<◌, length};
ghost use Rattle.slots.specs.Slot as slots;

// The kind stands above two fields of 20 bits.
const FIELD: u64 = 1 << 20;

const KIND: u64 = 1 << 40;

pub fn kind(s: u64) -> u32
    ensures { result ≡ slots.kind s }
{
    (s / KIND) as u32
}

pub fn left(s: u64) -> usize
    ensures { result ≡ slots.left s }
{
    (s / FIELD % FIELD) as usize
}

pub fn right(s: u64) -> usize
    ensures { result ≡ slots.right s }
{
    (s % FIELD) as usize
}

pub fn pack(kind: u32, left: usize, right: usize) -> u64
    requires { (kind < 16) × (left < 1048576) × (right < 1048576) }
    ensures { result ≡ slots.pack kind left right }
{
    (kind as u64) * KIND + (left as u64) * FIELD + (right as u64)
}

// A word at slot i of a draft, which is the answer.
pub fn store(draft: &mut [u64], i: usize, kind: u32, left: usize, right: usize) -> usize
    requires { (i < length draft.old) × (kind < 16) × (left < 1048576) × (right < 1048576) }
    ensures { slots.Stored draft.old draft.new i (slots.pack kind left right) result }
{
    draft[i] = pack(kind, left, right);
    i
}
