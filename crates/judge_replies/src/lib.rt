// The judge's answer as lent numbers: document 01's refusal number, 0 when the call is accepted, its place, and what an accepted call says.
#![tactic(auto)]

ghost use Rattle.judge_replies.specs.Replies.{JudgeReply};

use judging::answer::Judgement;
use outcome_replies::reply;
use refusals::Refusal;

// What a judgement says, or the refusal, in lent numbers.
pub fn judge_reply(
    answer: Result<Judgement, Refusal>,
    holds: &mut bool,
    moments: &mut usize,
    failing: &mut usize,
    place: &mut usize,
) -> u32
    ensures { JudgeReply answer result holds.new moments.new failing.new place.new }
{
    let told = answer.unwrap_or(Judgement {
        holds: false,
        moments: 0,
        failing: 0,
    });
    *holds = told.holds;
    *moments = told.moments;
    *failing = told.failing;
    reply(answer.map(|_| ()), place)
}
