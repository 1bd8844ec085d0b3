// Words that stand elsewhere, as a table in a lent slice: their header, and a copy of them.
#![tactic(auto)]

ghost use Rattle.table.specs.Header.{headed};
ghost use Rattle.header_classes.specs.Headable.{Headable};
ghost use Rattle.headed_answers.specs.Finished.{Given};

use refusals::Refusal;

// The table's length, or 12.
pub fn write(words: &[u32], res: &mut [u32]) -> Result<usize, Refusal>
    requires { Headable words.now }
    ensures { Given (headed words.now) res.old res.new result }
{
    let n = words.len();
    if res.len() <= n {
        return headed_answers::finish(res, None);
    }
    let end = n + 1;
    res[1..end].copy_from_slice(words);
    headed_answers::finish(res, Some(n))
}
