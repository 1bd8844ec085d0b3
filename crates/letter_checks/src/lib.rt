// Letters that a recording, or a sample, does not drive.
#![tactic(auto)]

ghost use Rattle.std.specs.Prelude.{◌≡◌};
ghost use Rattle.refusals.specs.Refusals.{first};
ghost use Rattle.table.specs.StepChecks.{letter_checks, sample_checks};

use refusals::Refusal;
use undriven_words::is_undriven;

// 21: the lowest word that names one.
pub fn check_letters(table: &[u32], driven: usize) -> Result<(), Refusal>
    ensures { result ≡ first (letter_checks driven 1 table.now) }
{
    for (i, &w) in table.iter().enumerate() {
        if is_undriven(w, driven) {
            return Err(Refusal::LetterNotDriven(i + 1));
        }
    }
    Ok(())
}

// 22, then 21.
pub fn check_sample(table: &[u32], driven: usize) -> Result<(), Refusal>
    ensures { result ≡ first (sample_checks driven table.now) }
{
    if driven > 32 {
        return Err(Refusal::TooManyDriven);
    }
    check_letters(table, driven)
}
