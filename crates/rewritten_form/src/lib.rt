// The form of words that are not their own form, made at the front of the result.
#![tactic(auto)]

ghost use Rattle.table.specs.Header.{headed};
ghost use Rattle.table.specs.Steps.{normal_table};
ghost use Rattle.headed_answers.specs.Finished.{Given};
ghost use Rattle.form_rooms.specs.Rooms.{Accepted};
ghost use Rattle.rewritten_form.specs.Forms.{Rewritable, Formed};

use refusals::Refusal;
use table::answer::Form;
use table::settings::Limits;

// 11 and 12 of words that are not their own form, and their normal form.
pub fn rewrite(limits: Limits, words: &[u32], res: &mut [u32]) -> Result<Form, Refusal>
    requires { Rewritable limits words.now }
    ensures { Formed limits (headed words.now) res.old result res.new }
{
    if let Some(past) = fixpoint_checks::past(words, limits.fixpoints) {
        return Err(Refusal::TooManyFixpoints(past));
    }
    Ok(Form::Made(answer(words, res)?))
}

// The form of words that can be formed, under its header.
fn answer(words: &[u32], res: &mut [u32]) -> Result<usize, Refusal>
    requires { Accepted words.now }
    ensures { Given (headed (normal_table words.now)) res.old res.new result }
{
    if res.is_empty() {
        return headed_answers::finish(res, None);
    }
    let n = forms::form(words, &mut res[1..]);
    headed_answers::finish(res, n)
}
