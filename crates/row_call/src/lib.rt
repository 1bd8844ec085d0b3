// The judge's row call in lent numbers: its refusal number and place, and which part of the scratch is the rule's own row.
#![tactic(auto)]

ghost use Rattle.std.specs.Prelude.{◌≡◌, length};
ghost use Rattle.table.specs.Header.{body};
ghost use Rattle.judging.specs.Judging.{row_outcome, scratch_after};
ghost use Rattle.judge_replies.specs.Replies.{RowReply};

use row_replies::row_reply;

// The row call: which part of the scratch is the rule's own row, by its first word and its length.
pub fn row(
    table: &[u32],
    samples: &[u32],
    start: usize,
    driven: usize,
    scratch: &mut [u64],
    from: &mut usize,
    words: &mut usize,
    place: &mut usize,
) -> u32
    ensures row_reply { RowReply
        (row_outcome table.now samples.now start driven scratch.old) (length (body table.now)) (length samples.now)
        result from.new words.new place.new }
    ensures scratch_after { scratch.new ≡ scratch_after
        (row_outcome table.now samples.now start driven scratch.old)
        table.now samples.now start driven scratch.old }
{
    let outcome = rule_rows::fill(table, samples, start, driven, scratch);
    row_reply(outcome, table.len(), samples.len(), from, words, place)
}
