// What is read off a row.
#![tactic(auto)]

ghost use Rattle.std.specs.Prelude.{◌≡◌, ℕ, ◌/◌, ◌≤◌, ◌<◌, length};
ghost use Rattle.logic.specs.Truth.{Sequence};
ghost use Rattle.row_words.specs.Row as rows;
ghost use Rattle.row_words.specs.Writing.{RowFor};

use row_words::row_word::{bit, filled, ones};

// Whether the row holds at a position.
pub fn holds_at(row: &[u64], i: usize) -> bool
    requires { i / 64 < length row.now }
    ensures { (L : ℕ) (f : Sequence) → row.now ≡ rows.row L f → i < L → result ≡ f i }
{
    bit(row[i / 64], i % 64)
}

// At how many positions the row holds.
pub fn count_held(row: &[u64]) -> usize
    requires { length row.now ≤ 64 }
    ensures { (L : ℕ) (f : Sequence) → row.now ≡ rows.row L f → result ≡ rows.count_true f L }
{
    let mut held: usize = 0;
    for word in row {
        held += word.count_ones() as usize;
    }
    held
}

// The first position at which the row fails, or the number of positions.
pub fn first_failing(row: &[u64], positions: usize) -> usize
    requires { RowFor positions row.now }
    ensures { (f : Sequence) → row.now ≡ rows.row positions f → result ≡ rows.first_false f 0 positions }
{
    for (w, word) in row.iter().enumerate() {
        let failing = ones(filled(positions, w)) ^ *word;
        if failing != 0 {
            return w * 64 + failing.trailing_zeros() as usize;
        }
    }
    positions
}
