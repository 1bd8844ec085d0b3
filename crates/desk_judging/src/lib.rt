// The judge over one tally for each desk.
#![tactic(auto)]

ghost use Rattle.std.specs.Prelude.{◌≡◌};
ghost use Rattle.judging.specs.Judging.{judge_outcome, scratch_after, desk_of, tallies_after};
ghost use Rattle.judging.specs.Judging.{reply as judgeReply};
ghost use Rattle.judge_replies.specs.Replies.{JudgeReply};

use tally::Tally;

// Whether the rule holds at the first position, at how many, and the first that fails, over a recording that drives the letters 1 to
// `driven`. One tally for each desk is lent, and the judgement is counted in that of the desk that it names.
pub fn judge<'a, 'd>(
    table: &'a [u32],
    samples: &'a [u32],
    start: usize,
    driven: usize,
    scratch: &'a mut [u64],
    tallies: &'d mut [Tally],
    desk: usize,
    holds: &'a mut bool,
    moments: &'a mut usize,
    failing: &'a mut usize,
    place: &'a mut usize,
) -> u32
    ensures { JudgeReply
        (judgeReply table.now samples.now start driven scratch.old (desk_of tallies.old desk)).answer
        result holds.new moments.new failing.new place.new
        × ((tallies.new ≡ tallies_after
        (judgeReply table.now samples.now start driven scratch.old (desk_of tallies.old desk)).answer
        tallies.old desk)
        × (scratch.new ≡ scratch_after
        (judge_outcome table.now samples.now start driven scratch.old (desk_of tallies.old desk))
        table.now samples.now start driven scratch.old)) }
{
    let desks = tallies.len();
    let tally = if desk < desks {
        tallies[desk]
    } else {
        Tally::new()
    };
    let called = judge_calls::judge(
        table, samples, start, driven, scratch, desks, desk, tally, holds, moments, failing, place,
    );
    if desk < desks {
        tallies[desk] = called.tally;
    }
    called.number
}
