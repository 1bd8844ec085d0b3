// The dialect without W and M: a plain table goes in, and the table of its conversion comes out at the front of the result.
#![tactic(auto)]

ghost use Rattle.std.specs.Prelude.{◌≡◌, length};
ghost use Rattle.table.specs.Frame.{dialect_step, answer_of, result_of};

use dialect_answers::answer;
use refusals::Refusal;

// The table's length, or why there is none.
pub fn convert(table: &[u32], res: &mut [u32]) -> Result<usize, Refusal>
    ensures value { result ≡ answer_of dialect_step table.now (length res.old) }
    ensures res_after { res.new ≡ result_of dialect_step table.now res.old }
{
    heading::check(table, true, 16383)?;
    answer(&table[1..], res)
}
