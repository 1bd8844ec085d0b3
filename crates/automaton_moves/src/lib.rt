// The move of a state of the watching automaton of a plain table whose rule is in Delta-2, by a sample; for state 0, the start. A table without a header at the
// front of the result.
#![tactic(auto)]

ghost use Rattle.std.specs.Prelude.{◌≡◌, length};
ghost use Rattle.table.specs.Frame.{answer_of, result_of};
ghost use Rattle.automaton_steps.specs.Steps.{move_step};

use answer_rooms::sized;
use refusals::Refusal;

// The table's length, or why there is none.
pub fn moves(
    table: &[u32],
    state: usize,
    sample: u32,
    driven: usize,
    res: &mut [u32],
) -> Result<usize, Refusal>
    ensures value { result ≡ answer_of (move_step state sample driven) table.now (length res.old) }
    ensures res_after { res.new ≡ result_of (move_step state sample driven) table.now res.old }
{
    watched_checks::check(table)?;
    sized(&table[1..], state, sample, driven, 16383, res)
}
