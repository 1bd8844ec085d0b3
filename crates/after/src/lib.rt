// The step by a sample: a plain table goes in, and the table of what remains of its rule comes out at the front of the result.
#![tactic(auto)]

ghost use Rattle.std.specs.Prelude.{◌≡◌, length};
ghost use Rattle.table.specs.Frame.{after_step, answer_of, result_of};

use after_answers::answer;
use after_checks::check;
use refusals::Refusal;

// The table's length, or why there is none.
pub fn step(table: &[u32], sample: u32, driven: usize, res: &mut [u32]) -> Result<usize, Refusal>
    ensures value { result ≡ answer_of (after_step sample driven) table.now (length res.old) }
    ensures res_after { res.new ≡ result_of (after_step sample driven) table.now res.old }
{
    check(table, driven)?;
    answer(&table[1..], sample, res)
}
