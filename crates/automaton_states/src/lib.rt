// The states of the watching automaton of a plain table whose rule is in Delta-2, one word each, at the front of the result.
#![tactic(auto)]

ghost use Rattle.std.specs.Prelude.{◌≡◌, true, length};
ghost use Rattle.std.specs.Prelude.{Ok, Err};
ghost use Rattle.table.specs.Checks.{checked};
ghost use Rattle.table.specs.Frame.{answer_of, result_of};
ghost use Rattle.automata_tables.specs.States.{state_words};
ghost use Rattle.automaton_steps.specs.Steps.{states_step};
ghost use Rattle.automaton_states.specs.Listed.{Listed};

use refusals::Refusal;
use state_rooms::write;
use watched_checks::check;

// How many there are, or why there are none.
pub fn states(table: &[u32], res: &mut [u32]) -> Result<usize, Refusal>
    ensures value { result ≡ answer_of states_step table.now (length res.old) }
    ensures res_after { res.new ≡ result_of states_step table.now res.old }
{
    check(table)?;
    list(&table[1..], res)
}

// The states of accepted words, or 12.
fn list(words: &[u32], res: &mut [u32]) -> Result<usize, Refusal>
    requires { checked true 16383 words.now ≡ Ok tt }
    ensures { Listed (state_words words.now) res.old res.new result }
{
    let n = write(words, 16383, &mut *res);
    if n <= res.len().min(16383) {
        return Ok(n);
    }
    res.fill(0);
    Err(Refusal::ResultTooShort)
}
