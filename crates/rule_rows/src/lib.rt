// The row call: the rows of all words of a rule, with no answer and no tally, and the rule's own row.
#![tactic(auto)]

ghost use Rattle.std.specs.Prelude.{◌≡◌};
ghost use Rattle.judging.specs.Judging.{row_outcome, scratch_after, last_row, part_at};
ghost use Rattle.refusals.specs.Refusals.{outcome_number, outcome_place};

use judge_checks::checks::check_row;
use outcome_replies::reply;
use refusals::Refusal;
use row_filling::fill_rows;
use row_words::row_word::row_words;

// The rows of the words alone, with no tally.
pub fn fill(
    table: &[u32],
    samples: &[u32],
    start: usize,
    driven: usize,
    scratch: &mut [u64],
) -> Result<(), Refusal>
    ensures value { result ≡ row_outcome table.now samples.now start driven scratch.old }
    ensures scratch_after { scratch.new ≡ scratch_after result table.now samples.now start driven scratch.old }
{
    check_row(table, samples.len(), start, driven, scratch.len())?;
    fill_rows(&table[1..], samples, start, scratch);
    Ok(())
}

// The row call: the rule's row, the one of the table's last word, where it lies in the scratch, or an empty part with the refusal's number and place.
// Of a slice that goes to the caller in part a contract says nothing at exit: what becomes of the whole scratch is said by `fill`.
pub fn row<'a>(
    table: &[u32],
    samples: &[u32],
    start: usize,
    driven: usize,
    scratch: &'a mut [u64],
    number: &mut u32,
    place: &mut usize,
) -> &'a mut [u64]
    ensures result_value { result.now ≡ last_row (row_outcome table.now samples.now start driven scratch.old) table.now samples.now start driven }
    ensures ref_ptr_value { result.ref_ptr ≡ part_at (row_outcome table.now samples.now start driven scratch.old) table.now samples.now scratch.entry.ref_ptr }
    ensures number_after { number.new ≡ outcome_number (row_outcome table.now samples.now start driven scratch.old) }
    ensures place_after { place.new ≡ outcome_place (row_outcome table.now samples.now start driven scratch.old) }
{
    let outcome = fill(table, samples, start, driven, scratch);
    *number = reply(outcome, place);
    match outcome {
        Err(_) => &mut scratch[0..0],
        Ok(()) => {
            let words = row_words(samples.len());
            let from = (table.len() - 2) * words;
            let to = from + words;
            &mut scratch[from..to]
        }
    }
}
