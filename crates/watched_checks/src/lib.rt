// The checks of a table whose watching automaton is asked for.
#![tactic(auto)]

ghost use Rattle.std.specs.Prelude.{◌≡◌};
ghost use Rattle.refusals.specs.Refusals.{first};
ghost use Rattle.automaton_steps.specs.Steps.{watched_checks};

use refusals::Refusal;

// The checks of the table with its header, then 28.
pub fn check(table: &[u32]) -> Result<(), Refusal>
    ensures { result ≡ first (watched_checks table.now) }
{
    heading::check(table, true, 16383)?;
    if headers::is_normal(table[0]) {
        return Ok(());
    }
    Err(Refusal::NotDeltaTwo)
}
