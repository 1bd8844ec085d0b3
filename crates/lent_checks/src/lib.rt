// The checks of what a judgement is lent beside its table: the recording with the letters and the scratch, and the named desk, each over the numbers that it looks at.
#![tactic(auto)]

ghost use Rattle.std.specs.Prelude.{◌≡◌, ◌≤◌, ◌++◌, length};
ghost use Rattle.refusals.specs.Refusals.{first};
ghost use Rattle.table.specs.StepChecks.{letter_checks};
ghost use Rattle.judge_conditions.specs.Checks.{recording_checks, scratch_checks, desk_checks};

use letter_checks::check_letters;
use recording_checks::check_recording;
use refusals::Refusal;
use row_words::row_word::row_words;
use tally::Desk;

// 16.
pub fn check_scratch(words: usize, samples: usize, scratch: usize) -> Result<(), Refusal>
    requires { (words ≤ 16383) × (samples ≤ 4096) }
    ensures { result ≡ first (scratch_checks words samples scratch) }
{
    if scratch < words * row_words(samples) {
        return Err(Refusal::ScratchTooShort);
    }
    Ok(())
}

// 21, then 16.
pub fn check_words(
    table: &[u32],
    samples: usize,
    driven: usize,
    scratch: usize,
) -> Result<(), Refusal>
    requires { (length table.now ≤ 16383) × (samples ≤ 4096) }
    ensures { result ≡ first (letter_checks driven 1 table.now ++ scratch_checks (length table.now) samples scratch) }
{
    check_letters(table, driven)?;
    check_scratch(table.len(), samples, scratch)
}

// 13 to 15, 22, 21 and 16, of the words of a table that passes the checks before them.
pub fn check_memory(
    table: &[u32],
    samples: usize,
    start: usize,
    driven: usize,
    scratch: usize,
) -> Result<(), Refusal>
    requires { length table.now ≤ 16383 }
    ensures { result ≡ first (recording_checks samples start driven
        ++ (letter_checks driven 1 table.now ++ scratch_checks (length table.now) samples scratch)) }
{
    check_recording(samples, start, driven)?;
    check_words(table, samples, driven, scratch)
}

// 26, then 17.
pub fn check_desk(desk: Desk) -> Result<(), Refusal>
    ensures { result ≡ first (desk_checks desk) }
{
    if desk.number >= desk.desks {
        return Err(Refusal::DeskOutside);
    }
    if desk.tally.full() {
        return Err(Refusal::TallyFull);
    }
    Ok(())
}
