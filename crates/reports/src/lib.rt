// The number and place of a refusal.
#![tactic(auto)]

ghost use Rattle.std.specs.Prelude.{◌≡◌};
ghost use Rattle.refusals.specs.Refusals.{report_of};

use refusals::{Refusal, Report};

pub fn report_of(r: Refusal) -> Report
    ensures { result ≡ report_of r }
{
    match r {
        Refusal::NoWord => Report(1, 0),
        Refusal::TooManyWords => Report(2, 0),
        Refusal::KindZero(n) => Report(3, n),
        Refusal::NotPlain(n) => Report(4, n),
        Refusal::OperandZero(n) => Report(5, n),
        Refusal::OperandNotEarlier(n) => Report(6, n),
        Refusal::LetterOutOfRange(n) => Report(7, n),
        Refusal::FieldNotZero(n) => Report(8, n),
        Refusal::Repeated(n) => Report(9, n),
        Refusal::Unused(n) => Report(10, n),
        Refusal::TooManyFixpoints(n) => Report(11, n),
        Refusal::ResultTooShort => Report(12, 0),
        Refusal::NoSample => Report(13, 0),
        Refusal::TooManySamples => Report(14, 0),
        Refusal::LoopStartOutside => Report(15, 0),
        Refusal::ScratchTooShort => Report(16, 0),
        Refusal::TallyFull => Report(17, 0),
        Refusal::NotWords => Report(18, 0),
        Refusal::NotGrammar(n) => Report(19, n),
        Refusal::TextTooLong => Report(20, 0),
        Refusal::LetterNotDriven(n) => Report(21, n),
        Refusal::TooManyDriven => Report(22, 0),
        Refusal::CountDiffers => Report(23, 0),
        Refusal::HeaderWrong => Report(24, 0),
        Refusal::LimitsOutside => Report(25, 0),
        Refusal::DeskOutside => Report(26, 0),
        Refusal::DrivenCountsDiffer => Report(27, 0),
        Refusal::NotDeltaTwo => Report(28, 0),
        Refusal::StateOutside => Report(6, 0),
    }
}
