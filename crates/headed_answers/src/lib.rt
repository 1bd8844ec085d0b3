// What a step that made a table answers: the table with its header, or 12.
#![tactic(auto)]

ghost use Rattle.table.specs.Answers.{or_zero};
ghost use Rattle.headed_answers.specs.Finished.{Finishable, Finished};

use refusals::Refusal;

// The header before the n words that stand after its place, or 12 where there are none.
pub fn finish(res: &mut [u32], n: Option<usize>) -> Result<usize, Refusal>
    requires { Finishable res.old (or_zero n) }
    ensures { Finished res.old (or_zero n) res.new result }
{
    match n {
        Some(n) if 0 < n => {
            let end = n + 1;
            res[0] = headers::of(&res[1..end]);
            Ok(end)
        }
        _ => {
            res.fill(0);
            Err(Refusal::ResultTooShort)
        }
    }
}
