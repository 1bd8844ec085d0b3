// The checks of the move call after those of its table.
#![tactic(auto)]

ghost use Rattle.std.specs.Prelude.{◌≡◌, length};
ghost use Rattle.refusals.specs.Refusals.{first};
ghost use Rattle.automata_tables.specs.States.{state_words};
ghost use Rattle.move_checks.specs.Left.{left_checks};

use letter_checks::check_sample;
use refusals::Refusal;

// 6 of a state past the last, then 22 and 21.
pub fn check_asked(words: &[u32], total: usize, state: usize, driven: usize) -> Result<(), Refusal>
    requires { total ≡ length (state_words words.now) }
    ensures { result ≡ first (left_checks state driven words.now) }
{
    if total < state {
        return Err(Refusal::StateOutside);
    }
    check_sample(words, driven)
}
