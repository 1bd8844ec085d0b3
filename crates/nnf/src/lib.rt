// The plain-form step: a written table goes in, and its plain form's table comes out at the front of the result.
#![tactic(auto)]

ghost use Rattle.std.specs.Prelude.{◌≡◌, length};
ghost use Rattle.table.specs.Frame.{plain_step, answer_of, result_of};

use plain_answers::answer;
use refusals::Refusal;
use table::settings::Limits;

pub fn plain_form(limits: Limits, table: &[u32], res: &mut [u32]) -> Result<usize, Refusal>
    ensures value { result ≡ answer_of (plain_step limits) table.now (length res.old) }
    ensures res_after { res.new ≡ result_of (plain_step limits) table.now res.old }
{
    if !limits::permitted(limits) {
        return Err(Refusal::LimitsOutside);
    }
    heading::check(table, false, limits.written)?;
    answer(&table[1..], res)
}
