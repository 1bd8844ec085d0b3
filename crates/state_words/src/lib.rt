// The states as words.
#![tactic(auto)]

ghost use Rattle.std.specs.Prelude.{◌≡◌, ◌+◌, ◌<◌};
ghost use Rattle.state_classes.specs.Classes.{bit_word};
ghost use Rattle.state_numbers.specs.Numbered.{Classed};
ghost use Rattle.state_words.specs.Stated.{Space, Put, Stated};

use class_bytes::fill;

// The states at the front of the result, where they fit; answers how many there are.
pub fn write(words: &[u32], bytes: &mut [u8], res: &mut [u32]) -> usize
    requires { Space words.now bytes.old }
    ensures { Stated words.now res.old res.new result }
{
    fill::fill(words, &mut *bytes);
    write_all(words, bytes, res)
}

fn write_all(words: &[u32], bytes: &[u8], res: &mut [u32]) -> usize
    requires { Classed words.now bytes.now }
    ensures { Stated words.now res.old res.new result }
{
    let mut made: usize = 0;
    for (i, word) in words.iter().enumerate() {
        made += put(word::kind(*word), bytes[i], i + 1, made, &mut *res);
    }
    made
}

// Those of one word, from an index on, where they fit; answers how many there are.
fn put(kind: u32, byte: u8, number: usize, at: usize, res: &mut [u32]) -> usize
    requires { (number < 16384) × (at < 32768) }
    ensures { Put kind byte number at res.old res.new result }
{
    let count = state_classes::count(kind, byte);
    if res.len() < at + count {
        return count;
    }
    for k in 0..count {
        res[at + k] = state_word(state_classes::class_at(byte, k), number);
    }
    count
}

// Kind 1 if the class is a Pi class, which is to be accepting; the class's bit; the table word.
fn state_word(class: usize, number: usize) -> u32
    requires { (class < 8) × (number < 16384) }
    ensures { result ≡ bit_word number class }
{
    match class {
        2 | 5 => word::pack(1, class, number),
        _ => word::pack(0, class, number),
    }
}
