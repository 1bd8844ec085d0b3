// Rows of truth values: the truth of a formula at each of up to 4,096 positions, 64 positions to a word. A writer for constants
// and one for the next position; an operand is lent as its row.
#![tactic(auto)]

ghost use Rattle.std.specs.Prelude.{◌≡◌, ◌<◌, length};
ghost use Rattle.logic.specs.Truth.{Sequence, shifted, looped};
ghost use Rattle.row_words.specs.Row as rows;
ghost use Rattle.row_words.specs.Writing.{RowFor};

use row_words::row_word::{bit, constant, filled, shift};

pub fn write_constant(row: &mut [u64], positions: usize, value: bool)
    requires { RowFor positions row.old }
    ensures { row.new ≡ rows.row positions (λ i. value) }
{
    let last = row.len() - 1;
    row.fill(constant(value, 64));
    row[last] = constant(value, filled(positions, last));
}

// Each position takes the next one's value, and the last one what comes in at the end.
fn shift_words(row: &mut [u64], a: &[u64], positions: usize, end: bool)
    requires row_for { RowFor positions row.old }
    requires a_len { length a.now ≡ length row.old }
    ensures { (A : Sequence)
        → a.now ≡ rows.row positions A
        → row.new ≡ rows.row positions (rows.next positions A end) }
{
    let last = row.len() - 1;
    // By index: each word reads the word after it too.
    for w in 0..last {
        row[w] = shift(a[w], a[w + 1], 64);
    }
    row[last] = shift(a[last], u64::from(end), filled(positions, last));
}

// X: what comes in at the end is the value at the loop start.
pub fn write_next(row: &mut [u64], a: &[u64], positions: usize, start: usize)
    requires row_for { RowFor positions row.old }
    requires a_len { (length a.now ≡ length row.old) × (start < positions) }
    ensures { (F A : Sequence)
        → a.now ≡ rows.row positions A
        → row.new ≡ rows.row positions (looped positions start shifted F A) }
{
    let end = bit(a[start / 64], start % 64);
    shift_words(row, a, positions, end);
}
