// From a written table to its form or the refusal: the plain-form step, and the normal-form step on exactly the words that it answered. The form
// is the plain form, where it stands, if that is its own form.
#![tactic(auto)]

ghost use Rattle.claims.specs.Claim.{Claim};

use refusals::Refusal;
use table::answer::Form;
use table::settings::Limits;

pub fn form(
    limits: Limits,
    table: &[u32],
    plain: &mut [u32],
    form: &mut [u32],
) -> Result<Form, Refusal>
    ensures { Claim
        limits
        table.now
        plain.old
        plain.new
        form.old
        form.new
        result }
{
    let n = nnf::plain_form(limits, table, plain)?;
    normal_form::form(limits, &plain[0..n], form)
}
