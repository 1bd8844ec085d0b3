// What a judgement answers, read off the rule's row.
#![tactic(auto)]

ghost use Rattle.std.specs.Prelude.{◌≡◌};
ghost use Rattle.logic.specs.Truth.{Sequence};
ghost use Rattle.row_words.specs.Writing.{RowFor};
ghost use Rattle.row_words.specs.Row as rows;
ghost use Rattle.judging.specs.Judging.{judgement};
ghost use Rattle.tally.specs.Tallies.{tally_after};

use judging::answer::{Judged, Judgement};
use row_reading::{count_held, first_failing, holds_at};
use tally::Tally;

// The answer off the rule's row, and the tally after it.
pub fn read_answer(row: &[u64], positions: usize, tally: Tally) -> Judged
    requires { RowFor positions row.now }
    ensures { (f : Sequence) → row.now ≡ rows.row positions f → (result.answer ≡ judgement f positions) × (result.tally ≡ tally_after tally (f 0)) }
{
    let holds = holds_at(row, 0);
    let answer = Judgement {
        holds,
        moments: count_held(row),
        failing: first_failing(row, positions),
    };
    Judged {
        answer: Ok(answer),
        tally: tally.after(holds),
    }
}
