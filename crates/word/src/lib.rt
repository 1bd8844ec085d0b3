// The three fields of a word, and a word from its fields.
#![tactic(auto)]

ghost use Rattle.std.specs.Prelude.{◌≡◌, ◌<◌};
ghost use Rattle.table.specs.Node as node;

// The kind stands above two fields of 14 bits.
const FIELD: u32 = 1 << 14;

const KIND: u32 = 1 << 28;

pub fn kind(w: u32) -> u32
    ensures { result ≡ node.kind w }
{
    w / KIND
}

pub fn left(w: u32) -> usize
    ensures { result ≡ node.left w }
{
    (w / FIELD % FIELD) as usize
}

pub fn right(w: u32) -> usize
    ensures { result ≡ node.right w }
{
    (w % FIELD) as usize
}

pub fn pack(kind: u32, left: usize, right: usize) -> u32
    requires { (kind < 16) × (left < 16384) × (right < 16384) }
    ensures { result ≡ node.pack kind left right }
{
    kind * KIND + (left as u32) * FIELD + (right as u32)
}
