// The rows of letters: a bit of each sample, or its denial, 64 samples to a word.
#![tactic(auto)]

ghost use Rattle.std.specs.Prelude.{◌≡◌, ◌+◌, ◌≤◌, length, get_or};
ghost use Rattle.logic.specs.Lasso.{letter_in};
ghost use Rattle.row_words.specs.Row as rows;
ghost use Rattle.row_words.specs.Writing.{RowFor, literal};

use letter_bits::{eight, one_by_one};
use row_words::row_word::{filled, ones};

// A letter at the n samples from the first on, eight by eight; those that are left over come first, since they stand highest.
fn by_eights(samples: &[u32], first: usize, n: usize, letter: u32) -> u64
    requires { (first + n ≤ length samples.now) × (n ≤ 64) × (1 ≤ letter) × (letter ≤ 32) }
    ensures { result ≡ rows.pack_bits (λ i. letter_in (get_or samples.now i 0) letter) first n }
{
    let over = n % 8;
    let mut word = one_by_one(samples, first + (n - over), over, letter);
    for k in (0..n / 8).rev() {
        word = word * 256 + eight(samples, first + k * 8, letter);
    }
    word
}

// A letter, or its denial, at the n samples from the first on.
fn letters(samples: &[u32], first: usize, n: usize, letter: u32, positive: bool) -> u64
    requires { (first + n ≤ length samples.now) × (1 ≤ n) × (n ≤ 64) × (1 ≤ letter) × (letter ≤ 32) }
    ensures { result ≡ rows.pack_bits (λ i. literal letter positive (get_or samples.now i 0)) first n }
{
    let word = by_eights(samples, first, n, letter);
    if positive { word } else { ones(n) ^ word }
}

pub fn write_letter(row: &mut [u64], samples: &[u32], letter: u32, positive: bool)
    requires row_for { RowFor (length samples.now) row.old }
    requires le_letter { (1 ≤ letter) × (letter ≤ 32) }
    ensures { row.new
        ≡ rows.row (length samples.now) (λ i. literal letter positive (get_or samples.now i 0)) }
{
    for (w, word) in row.iter_mut().enumerate() {
        *word = letters(samples, w * 64, filled(samples.len(), w), letter, positive);
    }
}
