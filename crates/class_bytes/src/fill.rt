// The bytes of a table of plain words, one a word, in rising order: an operand's byte is read back from the slice.
ghost use Rattle.std.specs.Prelude.{◌≡◌, ◌++◌, ◌-◌, ◌≤◌, ◌<◌, length, get_or, drop};
ghost use Rattle.table.specs.Steps.{class_bytes};
ghost use Rattle.class_bytes.specs.Words.{PlainWords, Filled};

use operator_bytes::byte;
use plain_kinds::PlainKind;

// The byte of word number `n`.
fn operand(bytes: &[u8], n: usize) -> u8
    requires { (0 < n) × (n ≤ length bytes.now) }
    ensures { result ≡ get_or bytes.now (n - 1) 0 }
{
    bytes[n - 1]
}

// The byte of the word at index `j`, after those before it.
fn byte_at(table: &[u32], bytes: &[u8], j: usize) -> u8
    requires { PlainWords table.now × (j < length table.now) × Filled table.now bytes.now j }
    ensures { result ≡ get_or (class_bytes table.now) j 0 }
{
    let w = table[j];
    match plain_kinds::of(word::kind(w)) {
        PlainKind::Atomic => 0x7F,
        PlainKind::Next => byte::next(operand(bytes, word::right(w))),
        PlainKind::Binary(o) => byte::binary(
            o,
            operand(bytes, word::left(w)),
            operand(bytes, word::right(w)),
        ),
    }
}

// One byte a word; the bytes past the words stay as they were.
pub fn fill(table: &[u32], bytes: &mut [u8])
    requires { PlainWords table.now × (length table.now ≤ length bytes.old) }
    ensures { bytes.new ≡ class_bytes table.now ++ drop (length table.now) bytes.old }
{
    // By index: a word's operands are read from the bytes before it.
    for i in 0..table.len() {
        bytes[i] = byte_at(table, bytes, i);
    }
}
