// Judging a rule over a looped recording: the rows of all its words, the answer read off the last one, and the tally.
#![tactic(auto)]

ghost use Rattle.std.specs.Prelude.{◌≡◌, false, ℕ, ◌≤◌};
ghost use Rattle.std.specs.Prelude.{Ok};
ghost use Rattle.table.specs.Table.{formulas, rule};
ghost use Rattle.table_rows.specs.Rows.{Fillable, lasso_of, rows_then};
ghost use Rattle.judging.specs.Judging.{judge_outcome, reply_by, reply, scratch_after};
ghost use Rattle.tally.specs.Tallies.{is_full};

use judge_checks::checks::check_judge;
use judging::answer::Judged;
use row_answers::read_answer;
use row_filling::fill_rows;
use row_words::row_word::row_words;
use tally::{Desk, Tally};

// A judgement that the checks accept, of the words after the table's header, for whatever driven count they do.
fn judge_accepted(
    table: &[u32],
    samples: &[u32],
    start: usize,
    scratch: &mut [u64],
    tally: Tally,
) -> Judged
    requires { Fillable table.now samples.now start scratch.old }
    ensures by_index { (driven : ℕ) → driven ≤ 32 → is_full tally ≡ false
        → result ≡ reply_by (Ok tt) (lasso_of samples.now start driven) (rule table.now) tally }
    ensures by_index_2 { (driven : ℕ) → driven ≤ 32
        → scratch.new ≡ rows_then (lasso_of samples.now start driven) (formulas table.now) scratch.old }
{
    fill_rows(table, samples, start, scratch);
    let words = row_words(samples.len());
    let from = (table.len() - 1) * words;
    let to = from + words;
    read_answer(&scratch[from..to], samples.len(), tally)
}

// The judge, over a table with its header.
pub fn judge(
    table: &[u32],
    samples: &[u32],
    start: usize,
    driven: usize,
    scratch: &mut [u64],
    desk: Desk,
) -> Judged
    ensures value { result ≡ reply table.now samples.now start driven scratch.old desk }
    ensures scratch_after { scratch.new ≡ scratch_after (judge_outcome table.now samples.now start driven scratch.old desk) table.now samples.now start driven scratch.old }
{
    let tally = desk.tally;
    // By a match: the tally goes back in either case, so the answer stands in a struct.
    match check_judge(table, samples.len(), start, driven, scratch.len(), desk) {
        Err(why) => Judged {
            answer: Err(why),
            tally,
        },
        Ok(()) => judge_accepted(&table[1..], samples, start, scratch, tally),
    }
}
