// What the plain-form step answers of accepted words: their plain form under its header, or 12.
#![tactic(auto)]

ghost use Rattle.table.specs.Header.{headed};
ghost use Rattle.table.specs.Steps.{plain_table};
ghost use Rattle.headed_answers.specs.Finished.{Given};
ghost use Rattle.plain_answers.specs.Formable.{Formable};

use refusals::Refusal;

// The plain form of accepted words, under its header. No form has more than two words for each of them and two more, so no more of the
// result is lent.
pub fn answer(words: &[u32], res: &mut [u32]) -> Result<usize, Refusal>
    requires { Formable words.now }
    ensures { Given (headed (plain_table words.now)) res.old res.new result }
{
    if res.is_empty() {
        return headed_answers::finish(res, None);
    }
    let lent = res.len().min(2 * words.len() + 3);
    let n = plain_rooms::write(words, &mut res[1..lent]);
    headed_answers::finish(res, n)
}
