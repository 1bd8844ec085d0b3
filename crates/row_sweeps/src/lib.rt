// Backward sweeps over rows.
#![tactic(auto)]

ghost use Rattle.std.specs.Prelude.{◌≡◌, false, ℕ, ◌-◌, length};
ghost use Rattle.logic.specs.Truth.{Sequence, sweep};
ghost use Rattle.row_words.specs.Row as rows;
ghost use Rattle.row_words.specs.Writing.{RowFor};
ghost use Rattle.row_sweeps.specs.Carried.{carried_row};

use row_words::row_word::filled;
use word_carries::{carried, first};
use word_steps::closed;

// The goals of a sweep with each word's carry taken in, from the last word down; what comes in at the end is given.
fn carry_words(row: &mut [u64], g: &[u64], p: &[u64], positions: usize, end: bool)
    requires row_for { RowFor positions row.old }
    requires g_len { (length g.now ≡ length row.old) × (length p.now ≡ length row.old) }
    ensures { (G P : Sequence)
        → g.now ≡ rows.row positions G
        → p.now ≡ rows.row positions P
        → row.new ≡ rows.row positions (carried_row positions G P end) }
{
    let mut n = filled(positions, row.len() - 1);
    let mut carry = end;
    // By index: the words of three rows stand at it.
    for w in (0..row.len()).rev() {
        let x = g[w];
        let q = p[w];
        row[w] = carried(x, q, carry, n);
        carry = first(x, q, carry, n);
        n = 64;
    }
}

// Each word swept by itself, with nothing carried in: no word waits for another, so that LLVM can take several at once.
// By index, since nothing would be known of the words that a `zip` of `iter_mut` wrote.
fn close_words(row: &mut [u64], p: &[u64])
    requires { length p.now ≡ length row.old }
    ensures { (positions : ℕ) (G P : Sequence)
        → row.old ≡ rows.row positions G
        → p.now ≡ rows.row positions P
        → row.new ≡ rows.row positions (rows.word_sweep positions G P false) }
{
    for (w, word) in row.iter_mut().enumerate() {
        *word = closed(*word, p[w]);
    }
}

// A sweep in two passes, since only the carries have to be found one word after another; what comes in at the end is given.
pub fn sweep_words(row: &mut [u64], g: &[u64], p: &[u64], positions: usize, end: bool)
    requires row_for { RowFor positions row.old }
    requires g_len { (length g.now ≡ length row.old) × (length p.now ≡ length row.old) }
    ensures { (G P : Sequence)
        → g.now ≡ rows.row positions G
        → p.now ≡ rows.row positions P
        → row.new ≡ rows.row positions (λ i. sweep G P end i (positions - i)) }
{
    carry_words(row, g, p, positions, end);
    close_words(row, p);
}
