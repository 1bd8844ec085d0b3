// The class of a table's words that their header tells: that of the last word, with bytes of the size that it needs; 0 where kinds 12 to 15 occur.
#![tactic(auto)]

ghost use Rattle.std.specs.Prelude.{◌≡◌, ◌≤◌, length};
ghost use Rattle.table.specs.Header.{is_written, class_of};
ghost use Rattle.header_classes.specs.Headable.{Headable};

use class_bytes::fill;

// Whether kinds 12 to 15 occur.
fn is_written(words: &[u32]) -> bool
    ensures { result ≡ is_written words.now }
{
    words.iter().any(|&w| 12 <= word::kind(w))
}

// The class of the last word, with a byte for each.
fn class_in(words: &[u32], bytes: &mut [u8]) -> u8
    requires { Headable words.now × (length words.now ≤ length bytes.old) }
    ensures { result ≡ class_of words.now }
{
    if is_written(words) {
        return 0;
    }
    fill::fill(words, bytes);
    bytes[words.len() - 1]
}

fn class_with<const WORDS: usize>(words: &[u32]) -> u8
    requires { Headable words.now × (length words.now ≤ WORDS) × (WORDS ≤ 16383) }
    ensures { result ≡ class_of words.now }
{
    let mut bytes = [0u8; WORDS];
    class_in(words, &mut bytes)
}

// A number past the words' own asks no more than that. That the function calls itself also keeps the bytes of the larger rooms out of its
// frame: the compiler joins no function with large arrays to one that calls itself.
pub fn class_of(words: &[u32], most: usize) -> u8
    requires { Headable words.now }
    ensures { result ≡ class_of words.now }
{
    if words.len() < most {
        return class_of(words, words.len());
    }
    if words.len() <= 64 {
        return class_with::<64>(words);
    }
    if words.len() <= 512 {
        return class_with::<512>(words);
    }
    class_with::<16383>(words)
}
