// The row of a word, from the rows of its operands.
#![tactic(auto)]

ghost use Rattle.std.specs.Prelude.{◌≡◌, Bool, ◌-◌, ◌≤◌, ◌<◌, length};
ghost use Rattle.logic.specs.Truth.{Sequence, Operation, across};
ghost use Rattle.row_words.specs.Row as rows;
ghost use Rattle.row_words.specs.Writing.{RowFor, joins};
ghost use Rattle.operators.specs.Looped.{literally, operation, does, row_by};
ghost use Rattle.table_rows.specs.Rows.{row_number};
ghost use Rattle.operand_rows.specs.Operands.{Standing, Prepared};

use connective_rows::write_connective;
use letter_rows::write_letter;
use operators::operator::Operator;
use row_fixpoints::write_fixpoint;
use row_words::connective::Connective;
use rows::{write_constant, write_next};

// The row of a word by its operator, from the rows that the operator reads.
pub fn write_word(
    row: &mut [u64],
    op: Operator,
    letter: usize,
    a: &[u64],
    b: &[u64],
    samples: &[u32],
    start: usize,
)
    requires row_for { RowFor (length samples.now) row.old }
    requires a_len { (length a.now ≡ length row.old) × (length b.now ≡ length row.old) × (start < length samples.now) }
    requires le_letter { (c : Bool) → does op ≡ literally c → (1 ≤ letter) × (letter ≤ 32) }
    ensures { (f g : Sequence)
        → Prepared op (length samples.now) f g a.now b.now
        → row.new ≡ rows.row (length samples.now)
        (row_by (length samples.now) start samples.now (does op) letter f g) }
{
    let positions = samples.len();
    match op {
        Operator::Constant(value) => write_constant(row, positions, value),
        Operator::Letter(positive) => write_letter(row, samples, letter as u32, positive),
        Operator::Each(_) => write_connective(row, Connective::Left, a, a, positions),
        Operator::Next => write_next(row, a, positions, start),
        Operator::Fixpoint { greatest, .. } => write_fixpoint(
            row, a, b, greatest, positions, start,
        ),
    }
}

// A connective of the rows of two words, copied out of the scratch: the row that is written is lent as a part of the scratch, and
// meanwhile no other part of it can be.
fn load(
    scratch: &[u64],
    op: Connective,
    left: usize,
    right: usize,
    positions: usize,
    copy: &mut [u64],
)
    requires row_for { RowFor positions copy.old }
    requires standing { Standing left (rows.row_words positions) scratch.now × Standing right (rows.row_words positions) scratch.now }
    ensures { (f g : Sequence)
        → row_number (rows.row_words positions) (left - 1) scratch.now ≡ rows.row positions f
        → row_number (rows.row_words positions) (right - 1) scratch.now ≡ rows.row positions g
        → copy.new ≡ rows.row positions (across (joins op) f g) }
{
    let words = copy.len();
    let i = (left - 1) * words;
    let j = (right - 1) * words;
    let m = i + words;
    let n = j + words;
    write_connective(copy, op, &scratch[i..m], &scratch[j..n], positions);
}

fn load_both(
    scratch: &[u64],
    first: Connective,
    second: Connective,
    left: usize,
    right: usize,
    positions: usize,
    a: &mut [u64],
    b: &mut [u64],
)
    requires row_for { RowFor positions a.old × RowFor positions b.old }
    requires standing { Standing left (rows.row_words positions) scratch.now × Standing right (rows.row_words positions) scratch.now }
    ensures { (f g : Sequence)
        → row_number (rows.row_words positions) (left - 1) scratch.now ≡ rows.row positions f
        → row_number (rows.row_words positions) (right - 1) scratch.now ≡ rows.row positions g
        → (a.new ≡ rows.row positions (across (joins first) f g)) × (b.new ≡ rows.row positions (across (joins second) f g)) }
{
    load(scratch, first, left, right, positions, a);
    load(scratch, second, left, right, positions, b);
}

// The rows that an operator reads, from those of its operands: nothing for a constant and a letter.
pub fn prepare(
    scratch: &[u64],
    op: Operator,
    left: usize,
    right: usize,
    positions: usize,
    a: &mut [u64],
    b: &mut [u64],
)
    requires row_for { RowFor positions a.old × RowFor positions b.old }
    requires standing { (o : Operation) → does op ≡ operation o
        → Standing left (rows.row_words positions) scratch.now × Standing right (rows.row_words positions) scratch.now }
    ensures { (f g : Sequence)
        → (((o : Operation) → does op ≡ operation o
        → (row_number (rows.row_words positions) (left - 1) scratch.now ≡ rows.row positions f)
        × (row_number (rows.row_words positions) (right - 1) scratch.now ≡ rows.row positions g)))
        → Prepared op positions f g a.new b.new }
{
    match op {
        Operator::Constant(_) | Operator::Letter(_) => {}
        Operator::Each(connective) => load(scratch, connective, left, right, positions, a),
        Operator::Next => load(scratch, Connective::Right, left, right, positions, a),
        Operator::Fixpoint { goal, keep, .. } => load_both(
            scratch, goal, keep, left, right, positions, a, b,
        ),
    }
}
