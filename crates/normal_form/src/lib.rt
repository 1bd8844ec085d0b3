// The normal-form step: a plain table goes in, and its form comes back. A table whose rule is in Delta-2 is its own form; of any other the normal
// form's table is made at the front of the result.
#![tactic(auto)]

ghost use Rattle.std.specs.Prelude.{◌≡◌, length};
ghost use Rattle.table.specs.Frame.{normal_step, result_of, form_of};

use refusals::Refusal;
use rewritten_form::rewrite;
use table::answer::Form;
use table::settings::Limits;

// Where the form stands, and how long it is.
pub fn form(limits: Limits, table: &[u32], res: &mut [u32]) -> Result<Form, Refusal>
    ensures value { result ≡ form_of limits table.now (length res.old) }
    ensures res_after { res.new ≡ result_of (normal_step limits) table.now res.old }
{
    if !limits::permitted(limits) {
        return Err(Refusal::LimitsOutside);
    }
    heading::check(table, true, 2 * limits.written + 2)?;
    if headers::is_normal(table[0]) {
        return Ok(Form::Source(table.len()));
    }
    rewrite(limits, &table[1..], res)
}
