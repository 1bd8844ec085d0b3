// The checks of a table that is stepped by a sample.
#![tactic(auto)]

ghost use Rattle.std.specs.Prelude.{◌≡◌, true, ◌++◌};
ghost use Rattle.refusals.specs.Refusals.{first};
ghost use Rattle.table.specs.Header.{body, headed_checks};
ghost use Rattle.table.specs.StepChecks.{sample_checks};

use letter_checks::check_sample;
use refusals::Refusal;

// The checks of the table with its header, then 22 and 21 of its words.
pub fn check(table: &[u32], driven: usize) -> Result<(), Refusal>
    ensures { result ≡ first (headed_checks true 16383 table.now ++ sample_checks driven (body table.now)) }
{
    heading::check(table, true, 16383)?;
    check_sample(&table[1..], driven)
}
