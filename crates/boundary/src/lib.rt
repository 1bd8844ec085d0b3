// The library for C and Rust: each step under a C name, over slices and numbers alone. Every function answers document 01's
// refusal number, 0 when the call is accepted, and writes the place to a lent number.
#![tactic(auto)]

ghost use Rattle.std.specs.Prelude.{◌≡◌, length};
ghost use Rattle.refusals.specs.Refusals.{outcome_number, outcome_place};
ghost use Rattle.table.specs.Limits.{house};
ghost use Rattle.table.specs.Header.{body, headed_checked};
ghost use Rattle.table.specs.Frame.{class_step, plain_step, normal_step, dialect_step, after_step, outcome_of, answer_of, result_of, form_of};
ghost use Rattle.text.specs.Text.{text_step};
ghost use Rattle.automaton_steps.specs.Steps.{states_step, move_step};
ghost use Rattle.claims.specs.Whole.{whole_form, whole_result};
ghost use Rattle.judging.specs.Judging.{judge_outcome, row_outcome, scratch_after, desk_of, tallies_after};
ghost use Rattle.judging.specs.Judging.{reply as judgeReply};
ghost use Rattle.replies.specs.Replies.{TableReply, FormReply};
ghost use Rattle.judge_replies.specs.Replies.{JudgeReply, RowReply};
ghost use Rattle.agreement.specs.Comparing.{comparison};
ghost use Rattle.agreement.specs.Replies.{ComparisonReply};

use tally::Tally;

#[unsafe(no_mangle)]
pub extern "C" fn showrule_check(table: &[u32], plain: bool, limit: usize, place: &mut usize) -> u32
    ensures value { result ≡ outcome_number (headed_checked plain limit table.now) }
    ensures place_after { place.new ≡ outcome_place (headed_checked plain limit table.now) }
{
    table_calls::check(table, plain, limit, place)
}

// One byte a word.
#[unsafe(no_mangle)]
pub extern "C" fn showrule_classify(table: &[u32], bytes: &mut [u8], place: &mut usize) -> u32
    ensures value { result ≡ outcome_number (outcome_of class_step table.now (length bytes.old)) }
    ensures place_after { place.new ≡ outcome_place (outcome_of class_step table.now (length bytes.old)) }
    ensures bytes_after { bytes.new ≡ result_of class_step table.now bytes.old }
{
    table_calls::classify(table, bytes, place)
}

// The table of a rule typed as text, at the front of the result.
#[unsafe(no_mangle)]
pub extern "C" fn showrule_text(
    text: &[u8],
    written: usize,
    fixpoints: usize,
    res: &mut [u32],
    words: &mut usize,
    place: &mut usize,
) -> u32
    ensures table_reply { TableReply
        (answer_of (text_step (house written fixpoints)) text.now (length res.old))
        result words.new place.new }
    ensures res_after { res.new ≡ result_of (text_step (house written fixpoints)) text.now res.old }
{
    text_call::text(text, written, fixpoints, res, words, place)
}

// The plain form of a written table, at the front of the result.
#[unsafe(no_mangle)]
pub extern "C" fn showrule_plain(
    table: &[u32],
    written: usize,
    fixpoints: usize,
    res: &mut [u32],
    words: &mut usize,
    place: &mut usize,
) -> u32
    ensures table_reply { TableReply
        (answer_of (plain_step (house written fixpoints)) table.now (length res.old))
        result words.new place.new }
    ensures res_after { res.new ≡ result_of (plain_step (house written fixpoints)) table.now res.old }
{
    plain_call::plain(table, written, fixpoints, res, words, place)
}

// The form of a plain table: the table itself, or the front of the result.
#[unsafe(no_mangle)]
pub extern "C" fn showrule_normal(
    table: &[u32],
    written: usize,
    fixpoints: usize,
    res: &mut [u32],
    own: &mut bool,
    words: &mut usize,
    place: &mut usize,
) -> u32
    ensures form_reply { FormReply
        (form_of (house written fixpoints) table.now (length res.old))
        result own.new words.new place.new }
    ensures res_after { res.new ≡ result_of (normal_step (house written fixpoints)) table.now res.old }
{
    form_calls::normal(table, written, fixpoints, res, own, words, place)
}

// The whole way: the plain form of a written table in one slice, and its form, which is that, or the front of the other.
#[unsafe(no_mangle)]
pub extern "C" fn showrule_form(
    table: &[u32],
    written: usize,
    fixpoints: usize,
    plain: &mut [u32],
    res: &mut [u32],
    own: &mut bool,
    words: &mut usize,
    place: &mut usize,
) -> u32
    ensures form_reply { FormReply
        (whole_form (house written fixpoints) table.now (length plain.old) (length res.old))
        result own.new words.new place.new }
    ensures plain_after { plain.new ≡ result_of (plain_step (house written fixpoints)) table.now plain.old }
    ensures res_after { res.new ≡ whole_result (house written fixpoints) table.now (length plain.old) res.old }
{
    form_calls::form(table, written, fixpoints, plain, res, own, words, place)
}

// The table of a plain table's conversion to the dialect without W and M, at the front of the result.
#[unsafe(no_mangle)]
pub extern "C" fn showrule_dialect(
    table: &[u32],
    res: &mut [u32],
    words: &mut usize,
    place: &mut usize,
) -> u32
    ensures table_reply { TableReply
        (answer_of dialect_step table.now (length res.old))
        result words.new place.new }
    ensures res_after { res.new ≡ result_of dialect_step table.now res.old }
{
    step_calls::dialect(table, res, words, place)
}

// The table of what remains of a plain table's rule after a sample that drives the letters 1 to `driven`, at the front of the result.
#[unsafe(no_mangle)]
pub extern "C" fn showrule_after(
    table: &[u32],
    sample: u32,
    driven: usize,
    res: &mut [u32],
    words: &mut usize,
    place: &mut usize,
) -> u32
    ensures table_reply { TableReply
        (answer_of (after_step sample driven) table.now (length res.old))
        result words.new place.new }
    ensures res_after { res.new ≡ result_of (after_step sample driven) table.now res.old }
{
    step_calls::after(table, sample, driven, res, words, place)
}

// The states of the automaton that watches a plain table's rule, which is in Delta-2, at the front of the result.
#[unsafe(no_mangle)]
pub extern "C" fn showrule_states(
    table: &[u32],
    res: &mut [u32],
    words: &mut usize,
    place: &mut usize,
) -> u32
    ensures table_reply { TableReply
        (answer_of states_step table.now (length res.old))
        result words.new place.new }
    ensures res_after { res.new ≡ result_of states_step table.now res.old }
{
    automaton_calls::states(table, res, words, place)
}

// The move of one of them, by its number from 1, on a sample that drives the letters 1 to `driven`, or for number 0 the start: a table
// without a header, at the front of the result.
#[unsafe(no_mangle)]
pub extern "C" fn showrule_move(
    table: &[u32],
    state: usize,
    sample: u32,
    driven: usize,
    res: &mut [u32],
    words: &mut usize,
    place: &mut usize,
) -> u32
    ensures table_reply { TableReply
        (answer_of (move_step state sample driven) table.now (length res.old))
        result words.new place.new }
    ensures res_after { res.new ≡ result_of (move_step state sample driven) table.now res.old }
{
    automaton_calls::moves(table, state, sample, driven, res, words, place)
}

// Whether the rule holds at the first position, at how many, and the first that fails, over a recording that drives the letters 1 to
// `driven`. One tally for each desk is lent, and the judgement is counted in that of the desk that it names.
#[unsafe(no_mangle)]
pub extern "C" fn showrule_judge<'a, 'd>(
    table: &'a [u32],
    samples: &'a [u32],
    start: usize,
    driven: usize,
    scratch: &'a mut [u64],
    tallies: &'d mut [Tally],
    desk: usize,
    holds: &'a mut bool,
    moments: &'a mut usize,
    failing: &'a mut usize,
    place: &'a mut usize,
) -> u32
    ensures { JudgeReply
        (judgeReply table.now samples.now start driven scratch.old (desk_of tallies.old desk)).answer
        result holds.new moments.new failing.new place.new
        × ((tallies.new ≡ tallies_after
        (judgeReply table.now samples.now start driven scratch.old (desk_of tallies.old desk)).answer
        tallies.old desk)
        × (scratch.new ≡ scratch_after
        (judge_outcome table.now samples.now start driven scratch.old (desk_of tallies.old desk))
        table.now samples.now start driven scratch.old)) }
{
    desk_judging::judge(
        table, samples, start, driven, scratch, tallies, desk, holds, moments, failing, place,
    )
}

// The row call: which part of the scratch is the rule's own row, by its first word and its length.
#[unsafe(no_mangle)]
pub extern "C" fn showrule_row(
    table: &[u32],
    samples: &[u32],
    start: usize,
    driven: usize,
    scratch: &mut [u64],
    from: &mut usize,
    words: &mut usize,
    place: &mut usize,
) -> u32
    ensures row_reply { RowReply
        (row_outcome table.now samples.now start driven scratch.old) (length (body table.now)) (length samples.now)
        result from.new words.new place.new }
    ensures scratch_after { scratch.new ≡ scratch_after
        (row_outcome table.now samples.now start driven scratch.old)
        table.now samples.now start driven scratch.old }
{
    row_call::row(table, samples, start, driven, scratch, from, words, place)
}

// Whether two recordings, read on for ever, have the same driven bits at every moment, and if not, the first moment that differs.
#[unsafe(no_mangle)]
pub extern "C" fn showrule_compare(
    samples: &[u32],
    start: usize,
    driven: usize,
    others: &[u32],
    other_start: usize,
    other_driven: usize,
    same: &mut bool,
    moment: &mut usize,
    place: &mut usize,
) -> u32
    ensures { ComparisonReply
        (comparison samples.now start driven others.now other_start other_driven)
        result same.new moment.new place.new }
{
    comparison_call::compare(
        samples,
        start,
        driven,
        others,
        other_start,
        other_driven,
        same,
        moment,
        place,
    )
}
