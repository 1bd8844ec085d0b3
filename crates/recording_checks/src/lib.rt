// The checks of a recording, over the numbers that they look at.
#![tactic(auto)]

ghost use Rattle.std.specs.Prelude.{◌≡◌};
ghost use Rattle.refusals.specs.Refusals.{first};
ghost use Rattle.judge_conditions.specs.Checks.{recording_checks};

use refusals::Refusal;

// 13 to 15, then 22.
pub fn check_recording(samples: usize, start: usize, driven: usize) -> Result<(), Refusal>
    ensures { result ≡ first (recording_checks samples start driven) }
{
    if samples == 0 {
        return Err(Refusal::NoSample);
    }
    if samples > 4096 {
        return Err(Refusal::TooManySamples);
    }
    if start >= samples {
        return Err(Refusal::LoopStartOutside);
    }
    if driven > 32 {
        return Err(Refusal::TooManyDriven);
    }
    Ok(())
}
