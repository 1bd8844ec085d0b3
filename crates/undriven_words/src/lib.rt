// Words that name a letter which a recording, or a sample, does not drive.
#![tactic(auto)]

ghost use Rattle.std.specs.Prelude.{◌≡◌};
ghost use Rattle.table.specs.StepChecks.{is_undriven};

// Whether a word names a letter that is not driven.
pub fn is_undriven(word: u32, driven: usize) -> bool
    ensures { result ≡ is_undriven driven word }
{
    // By arms: what no arm takes is below the kinds of letters, or above them.
    match word::kind(word) {
        3..=4 => word::right(word) > driven,
        _ => false,
    }
}
