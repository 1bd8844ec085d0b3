// Two recordings of one show held against each other.
#![tactic(auto)]

ghost use Rattle.std.specs.Prelude.{◌≡◌, ◌++◌};
ghost use Rattle.refusals.specs.Refusals.{first};
ghost use Rattle.judge_conditions.specs.Checks.{recording_checks};
ghost use Rattle.agreement.specs.Comparing as comparing;

use differing::first_difference;
use recording_checks::check_recording;
use refusals::Refusal;

// 13 to 15 and 22 of the second recording, then 27.
fn check_second(
    samples: usize,
    start: usize,
    driven: usize,
    first_driven: usize,
) -> Result<(), Refusal>
    ensures { result ≡ first (recording_checks samples start driven ++ comparing.count_checks first_driven driven) }
{
    check_recording(samples, start, driven)?;
    if first_driven == driven {
        Ok(())
    } else {
        Err(Refusal::DrivenCountsDiffer)
    }
}

// 13 to 15 and 22 of the first recording, the same of the second, then 27.
fn check_both(
    samples: usize,
    start: usize,
    driven: usize,
    others: usize,
    other_start: usize,
    other_driven: usize,
) -> Result<(), Refusal>
    ensures { result ≡ first (comparing.comparison_checks samples start driven others other_start other_driven) }
{
    check_recording(samples, start, driven)?;
    check_second(others, other_start, other_driven, driven)
}

// Whether two recordings, read on for ever, have the same driven bits at every moment, and if not, the first moment that differs.
pub fn compare(
    samples: &[u32],
    start: usize,
    driven: usize,
    others: &[u32],
    other_start: usize,
    other_driven: usize,
) -> Result<Option<usize>, Refusal>
    ensures { result ≡ comparing.comparison samples.now start driven others.now other_start other_driven }
{
    check_both(
        samples.len(),
        start,
        driven,
        others.len(),
        other_start,
        other_driven,
    )?;
    Ok(first_difference(samples, start, others, other_start, driven))
}
