// What the step by a sample answers of accepted words: what remains of their rule, under its header, or 12.
#![tactic(auto)]

ghost use Rattle.std.specs.Prelude.{◌≡◌, true};
ghost use Rattle.std.specs.Prelude.{Ok};
ghost use Rattle.table.specs.Answers.{OrNone};
ghost use Rattle.table.specs.Checks.{checked};
ghost use Rattle.table.specs.Header.{headed};
ghost use Rattle.table.specs.Steps.{after_table};
ghost use Rattle.placing.specs.Written.{Written};
ghost use Rattle.headed_answers.specs.Finished.{Given};

use refusals::Refusal;

// What remains of accepted words, under its header.
pub fn answer(words: &[u32], sample: u32, res: &mut [u32]) -> Result<usize, Refusal>
    requires { checked true 16383 words.now ≡ Ok tt }
    ensures { Given (headed (after_table sample words.now)) res.old res.new result }
{
    if res.is_empty() {
        return headed_answers::finish(res, None);
    }
    let n = write(words, sample, &mut res[1..]);
    headed_answers::finish(res, n)
}

// The table at the front of the result, and its length, if it fits. It has no more words than the draft has slots, so no more of the result
// is lent. That the function calls itself also keeps the arrays of the rooms out of its frame: the compiler joins no
// function with large arrays to one that calls itself.
fn write(table: &[u32], sample: u32, res: &mut [u32]) -> Option<usize>
    requires { checked true 16383 table.now ≡ Ok tt }
    ensures { OrNone (λ n. Written (after_table sample table.now) res.old res.new n) result }
{
    let slots = 3 * table.len() + 3;
    if slots < res.len() {
        return write(table, sample, &mut res[..slots]);
    }
    if table.len() <= 64 {
        return after_rooms::write_in::<195, 392>(table, sample, res);
    }
    if table.len() <= 512 {
        return after_rooms::write_in::<1539, 3080>(table, sample, res);
    }
    after_rooms::write_in::<49152, 32768>(table, sample, res)
}
