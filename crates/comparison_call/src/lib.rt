// The comparison of two recordings in lent numbers: its refusal number and place, whether they are the same, and the first moment that differs.
#![tactic(auto)]

ghost use Rattle.agreement.specs.Comparing.{comparison};
ghost use Rattle.agreement.specs.Replies.{ComparisonReply};

use refusals::Refusal;

// A comparison in lent numbers.
fn reply(
    c: Result<Option<usize>, Refusal>,
    same: &mut bool,
    moment: &mut usize,
    place: &mut usize,
) -> u32
    ensures { ComparisonReply c result same.new moment.new place.new }
{
    *same = matches!(c, Ok(None));
    *moment = c.ok().flatten().unwrap_or(0);
    outcome_replies::reply(c.map(|_| ()), place)
}

// Whether two recordings, read on for ever, have the same driven bits at every moment, and if not, the first moment that differs.
pub fn compare(
    samples: &[u32],
    start: usize,
    driven: usize,
    others: &[u32],
    other_start: usize,
    other_driven: usize,
    same: &mut bool,
    moment: &mut usize,
    place: &mut usize,
) -> u32
    ensures { ComparisonReply
        (comparison samples.now start driven others.now other_start other_driven)
        result same.new moment.new place.new }
{
    reply(
        comparing::compare(samples, start, driven, others, other_start, other_driven),
        same,
        moment,
        place,
    )
}
