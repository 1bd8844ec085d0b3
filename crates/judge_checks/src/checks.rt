// The checks of a judgement, of a table with its header.
ghost use Rattle.std.specs.Prelude.{◌≡◌};
ghost use Rattle.refusals.specs.Refusals.{first};
ghost use Rattle.judge_conditions.specs.Checks.{row_checks, judge_checks};

use lent_checks::{check_desk, check_memory};
use refusals::Refusal;
use tally::Desk;

// The row call's.
pub fn check_row(
    table: &[u32],
    samples: usize,
    start: usize,
    driven: usize,
    scratch: usize,
) -> Result<(), Refusal>
    ensures { result ≡ first (row_checks table.now samples start driven scratch) }
{
    heading::check(table, false, 16383)?;
    check_memory(&table[1..], samples, start, driven, scratch)
}

// The judge's, likewise.
pub fn check_judge(
    table: &[u32],
    samples: usize,
    start: usize,
    driven: usize,
    scratch: usize,
    desk: Desk,
) -> Result<(), Refusal>
    ensures { result ≡ first (judge_checks table.now samples start driven scratch desk) }
{
    check_row(table, samples, start, driven, scratch)?;
    check_desk(desk)
}
