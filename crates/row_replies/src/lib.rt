// The row call's answer in lent numbers.
#![tactic(auto)]

ghost use Rattle.std.specs.Prelude.{◌≡◌, ◌+◌, ◌-◌, ◌*◌, ◌≤◌};
ghost use Rattle.std.specs.Prelude.{Ok};
ghost use Rattle.row_words.specs.Row.{row_words};
ghost use Rattle.judge_replies.specs.Replies.{RowReply};

use outcome_replies::reply;
use refusals::Refusal;
use row_words::row_word::row_words;

// Of a table of so many words, its header among them: its refusal number and place, and which part of the scratch is the rule's own row.
pub fn row_reply(
    outcome: Result<(), Refusal>,
    table: usize,
    samples: usize,
    from: &mut usize,
    words: &mut usize,
    place: &mut usize,
) -> u32
    requires { outcome ≡ Ok tt → (2 ≤ table) × (samples ≤ 4096) × ((table - 2) * row_words samples + row_words samples ≤ 1048576) }
    ensures { RowReply outcome (table - 1) samples result from.new words.new place.new }
{
    match outcome {
        Err(_) => {
            *from = 0;
            *words = 0;
        }
        Ok(()) => {
            let width = row_words(samples);
            *from = (table - 2) * width;
            *words = width;
        }
    }
    reply(outcome, place)
}
