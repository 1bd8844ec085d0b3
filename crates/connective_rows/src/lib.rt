// The rows of connectives.
#![tactic(auto)]

ghost use Rattle.std.specs.Prelude.{◌≡◌, length};
ghost use Rattle.logic.specs.Truth.{Sequence, across};
ghost use Rattle.row_words.specs.Row as rows;
ghost use Rattle.row_words.specs.Writing.{RowFor, joins};

use row_words::connective::Connective;
use row_words::row_word::filled;
use word_steps::join;

fn join_words(row: &mut [u64], op: Connective, a: &[u64], b: &[u64], positions: usize)
    requires row_for { RowFor positions row.old }
    requires a_len { (length a.now ≡ length row.old) × (length b.now ≡ length row.old) }
    ensures { (A B : Sequence)
        → a.now ≡ rows.row positions A
        → b.now ≡ rows.row positions B
        → row.new ≡ rows.row positions (across (joins op) A B) }
{
    let last = row.len() - 1;
    // By index: the words of both operands are read at once.
    for w in 0..last {
        row[w] = join(op, a[w], b[w], 64);
    }
    row[last] = join(op, a[last], b[last], filled(positions, last));
}

// A connective at every position. Which one it is is asked here, once a row, so that each loop is made for its own connective: asked at each word it is slower.
pub fn write_connective(row: &mut [u64], op: Connective, a: &[u64], b: &[u64], positions: usize)
    requires row_for { RowFor positions row.old }
    requires a_len { (length a.now ≡ length row.old) × (length b.now ≡ length row.old) }
    ensures { (A B : Sequence)
        → a.now ≡ rows.row positions A
        → b.now ≡ rows.row positions B
        → row.new ≡ rows.row positions (across (joins op) A B) }
{
    match op {
        Connective::Never => join_words(row, Connective::Never, a, b, positions),
        Connective::Always => join_words(row, Connective::Always, a, b, positions),
        Connective::Left => join_words(row, Connective::Left, a, b, positions),
        Connective::Right => join_words(row, Connective::Right, a, b, positions),
        Connective::And => join_words(row, Connective::And, a, b, positions),
        Connective::Or => join_words(row, Connective::Or, a, b, positions),
        Connective::Implies => join_words(row, Connective::Implies, a, b, positions),
        Connective::Not => join_words(row, Connective::Not, a, b, positions),
    }
}
