// A letter of samples, packed into a word: one sample, four, eight, or one by one.
#![tactic(auto)]

ghost use Rattle.std.specs.Prelude.{◌≡◌, ◌+◌, ◌≤◌, ◌<◌, length, get_or};
ghost use Rattle.logic.specs.Lasso.{letter_in};
ghost use Rattle.row_words.specs.Row as rows;

// A letter in one sample, as a bit.
fn letter_bit(sample: u32, letter: u32) -> u64
    requires { (1 ≤ letter) × (letter ≤ 32) }
    ensures { (result ≡ rows.digit (letter_in sample letter)) × (result < 2) }
{
    u64::from((sample >> (letter - 1)) % 2)
}

// A letter at the four samples from the first on.
fn four(samples: &[u32], first: usize, letter: u32) -> u64
    requires { (first + 4 ≤ length samples.now) × (1 ≤ letter) × (letter ≤ 32) }
    ensures { result ≡ rows.pack_bits (λ i. letter_in (get_or samples.now i 0) letter) first 4 }
{
    letter_bit(samples[first], letter)
        + letter_bit(samples[first + 1], letter) * 2
        + letter_bit(samples[first + 2], letter) * 4
        + letter_bit(samples[first + 3], letter) * 8
}

// A letter at eight samples: none of them waits for another, so that the processor takes several at once.
pub fn eight(samples: &[u32], first: usize, letter: u32) -> u64
    requires { (first + 8 ≤ length samples.now) × (1 ≤ letter) × (letter ≤ 32) }
    ensures { result ≡ rows.pack_bits (λ i. letter_in (get_or samples.now i 0) letter) first 8 }
{
    four(samples, first, letter) + four(samples, first + 4, letter) * 16
}

// A letter at the n samples from the first on, one by one from the last down.
pub fn one_by_one(samples: &[u32], first: usize, n: usize, letter: u32) -> u64
    requires { (first + n ≤ length samples.now) × (n ≤ 64) × (1 ≤ letter) × (letter ≤ 32) }
    ensures { result ≡ rows.pack_bits (λ i. letter_in (get_or samples.now i 0) letter) first n }
{
    let mut word: u64 = 0;
    for i in (0..n).rev() {
        word = word * 2 + letter_bit(samples[first + i], letter);
    }
    word
}
