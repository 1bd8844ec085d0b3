// An outcome as lent numbers: document 01's refusal number, 0 when the call is accepted, and its place.
#![tactic(auto)]

ghost use Rattle.std.specs.Prelude.{◌≡◌};
ghost use Rattle.refusals.specs.Refusals.{outcome_number, outcome_place};

use refusals::{Refusal, Report};
use reports::report_of;

pub fn reply(o: Result<(), Refusal>, place: &mut usize) -> u32
    ensures value { result ≡ outcome_number o }
    ensures place_after { place.new ≡ outcome_place o }
{
    let Report(number, at) = match o {
        Ok(()) => Report(0, 0),
        Err(why) => report_of(why),
    };
    *place = at;
    number
}
