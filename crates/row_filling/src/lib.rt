// The rows of a table's words, in rising word number from the start of the scratch.
#![tactic(auto)]

ghost use Rattle.std.specs.Prelude.{◌≡◌, ℕ, ◌+◌, ◌≤◌, ◌<◌, length, take};
ghost use Rattle.table.specs.Table.{formulas};
ghost use Rattle.row_words.specs.Writing.{RowFor};
ghost use Rattle.table_rows.specs.Rows.{lasso_of, rows_then, Fillable};
ghost use Rattle.row_filling.specs.Filling.{first_operand};

use operand_rows::{prepare, write_word};
use operators::operator::of_kind;
use row_words::row_word::row_words;

// The word on the left: a word with one operand is read as having it on both sides.
fn first_operand(word: u32) -> usize
    ensures { result ≡ first_operand word }
{
    let left = word::left(word);
    if left == 0 { word::right(word) } else { left }
}

// The row of word j + 1, in its own part of the scratch, after those of the words before it; a and b are for the rows that it reads.
fn fill_row(
    table: &[u32],
    j: usize,
    samples: &[u32],
    start: usize,
    scratch: &mut [u64],
    a: &mut [u64],
    b: &mut [u64],
)
    requires j_in_bounds { (j < length table.now) × Fillable table.now samples.now start scratch.old }
    requires row_for { RowFor (length samples.now) a.old × RowFor (length samples.now) b.old }
    ensures { (driven : ℕ) → driven ≤ 32
        → scratch.old ≡ rows_then (lasso_of samples.now start driven) (take j (formulas table.now)) scratch.old
        → scratch.new ≡ rows_then (lasso_of samples.now start driven) (take (j + 1) (formulas table.now)) scratch.old }
{
    let words = row_words(samples.len());
    let word = table[j];
    let op = of_kind(word::kind(word));
    let right = word::right(word);
    prepare(scratch, op, first_operand(word), right, samples.len(), a, b);
    let from = j * words;
    let to = from + words;
    write_word(&mut scratch[from..to], op, right, a, b, samples, start);
}

// The rows of all words, whatever letters are driven: the checks have seen to it that no other is named.
pub fn fill_rows(table: &[u32], samples: &[u32], start: usize, scratch: &mut [u64])
    requires { Fillable table.now samples.now start scratch.old }
    ensures { (driven : ℕ) → driven ≤ 32
        → scratch.new ≡ rows_then (lasso_of samples.now start driven) (formulas table.now) scratch.old }
{
    let words = row_words(samples.len());
    let mut a = [0u64; 64];
    let mut b = [0u64; 64];
    'each: for j in 0..table.len() {
        fill_row(
            table,
            j,
            samples,
            start,
            scratch,
            &mut a[..words],
            &mut b[..words],
        );
    }
}
