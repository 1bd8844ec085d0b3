// The judge in lent numbers: an answer is its refusal number, its place and what it says. The desk's tally goes in and comes back by value.
#![tactic(auto)]

ghost use Rattle.std.specs.Prelude.{◌≡◌};
ghost use Rattle.judging.specs.Judging.{judge_outcome, scratch_after};
ghost use Rattle.judging.specs.Judging.{reply as judgeReply};
ghost use Rattle.judge_replies.specs.Replies.{JudgeReply};

use judge_replies::judge_reply;
use tally::{Desk, Tally};

// The refusal number, and the named desk's tally after the call.
#[derive(Clone, Copy)]
pub struct Called {
    pub number: u32,
    pub tally: Tally,
}

// Whether the rule holds at the first position, at how many, and the first that fails, over a recording that drives the letters 1 to
// `driven`, for the desk of number `desk` among so many, with its tally. All that is lent has one lifetime, as the C name lends it on together.
pub fn judge<'a>(
    table: &'a [u32],
    samples: &'a [u32],
    start: usize,
    driven: usize,
    scratch: &'a mut [u64],
    desks: usize,
    desk: usize,
    tally: Tally,
    holds: &'a mut bool,
    moments: &'a mut usize,
    failing: &'a mut usize,
    place: &'a mut usize,
) -> Called
    ensures { JudgeReply
        (judgeReply table.now samples.now start driven scratch.old (record { desks = desks; number = desk; tally = tally })).answer
        result.number holds.new moments.new failing.new place.new
        × ((result.tally ≡ (judgeReply table.now samples.now start driven scratch.old (record { desks = desks; number = desk; tally = tally })).tally)
        × (scratch.new ≡ scratch_after
        (judge_outcome table.now samples.now start driven scratch.old (record { desks = desks; number = desk; tally = tally }))
        table.now samples.now start driven scratch.old)) }
{
    let named = Desk {
        desks,
        number: desk,
        tally,
    };
    let judged = evaluation::judge(table, samples, start, driven, scratch, named);
    Called {
        number: judge_reply(judged.answer, holds, moments, failing, place),
        tally: judged.tally,
    }
}
