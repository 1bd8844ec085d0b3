// What the dialect step answers of accepted words: their conversion under its header, or 12.
#![tactic(auto)]

ghost use Rattle.std.specs.Prelude.{◌≡◌, true};
ghost use Rattle.std.specs.Prelude.{Ok};
ghost use Rattle.table.specs.Checks.{checked};
ghost use Rattle.table.specs.Steps.{dialect_table};
ghost use Rattle.table.specs.Header.{headed};
ghost use Rattle.headed_answers.specs.Finished.{Given};

use dialect_writing::write;
use refusals::Refusal;

// The conversion of accepted words, under its header.
pub fn answer(words: &[u32], res: &mut [u32]) -> Result<usize, Refusal>
    requires { checked true 16383 words.now ≡ Ok tt }
    ensures { Given (headed (dialect_table words.now)) res.old res.new result }
{
    if res.is_empty() {
        return headed_answers::finish(res, None);
    }
    let n = write(words, &mut res[1..]);
    headed_answers::finish(res, n)
}
