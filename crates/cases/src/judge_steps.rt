// The judge's two calls, on a scratch that held a pattern, and the comparison of two recordings: what comes back. Each number that a call
// writes held 9.
use case_input::Case;
use case_output::{made, show, sum};
use refusals::Report;
use std::io;
use std::io::Write;
use tally::Tally;

// What a call prints of a scratch, the first `room` words of it lent to it, and then the whole scratch.
fn in_scratch<W: Write, F: FnOnce(&mut W, &mut [u64]) -> io::Result<()>>(
    out: &mut W,
    room: usize,
    call: F,
) -> io::Result<()>
    requires { F.IsAlwaysCallable call }
{
    let mut scratch = [u64::MAX; 2100];
    if room <= scratch.len() {
        call(out, &mut scratch[..room])?;
        sum::whole(out, &scratch)?;
    }
    Ok(())
}

pub fn judge<W: Write>(out: &mut W, case: &Case<'_>) -> io::Result<()> {
    in_scratch(
        out,
        case.head.room,
        |out, scratch| judged(out, case, scratch),
    )
}

// By the call that takes the named desk's tally by value: a function that lends a slice of tallies is not covered.
fn judged<W: Write>(out: &mut W, case: &Case<'_>, scratch: &mut [u64]) -> io::Result<()> {
    let mut holds = true;
    let mut moments: usize = 9;
    let mut failing: usize = 9;
    let mut place: usize = 9;
    let called = judge_calls::judge(
        case.table,
        case.samples,
        case.head.start,
        case.head.driven,
        scratch,
        case.head.desks,
        case.head.desk,
        case.head.tally,
        &mut holds,
        &mut moments,
        &mut failing,
        &mut place,
    );
    made::judgement(out, Report(called.number, place), holds, moments, failing)?;
    tally_shown(out, called.tally)
}

fn tally_shown<W: Write>(out: &mut W, t: Tally) -> io::Result<()> {
    show::number(out, t.judged as usize)?;
    show::number(out, t.held as usize)
}

// The row that is handed back, and the whole scratch.
pub fn row<W: Write>(out: &mut W, case: &Case<'_>) -> io::Result<()> {
    in_scratch(
        out,
        case.head.room,
        |out, scratch| handed(out, case, scratch),
    )
}

fn handed<W: Write>(out: &mut W, case: &Case<'_>, scratch: &mut [u64]) -> io::Result<()> {
    let mut refusal: u32 = 9;
    let mut place: usize = 9;
    let part = rule_rows::row(
        case.table,
        case.samples,
        case.head.start,
        case.head.driven,
        scratch,
        &mut refusal,
        &mut place,
    );
    show::answer(out, Report(refusal, place))?;
    sum::part(out, part)
}

pub fn compare<W: Write>(out: &mut W, case: &Case<'_>) -> io::Result<()> {
    let mut same = true;
    let mut moment: usize = 9;
    let mut place: usize = 9;
    let refusal = comparison_call::compare(
        case.table,
        case.head.first_start(),
        case.head.first_driven(),
        case.samples,
        case.head.start,
        case.head.driven,
        &mut same,
        &mut moment,
        &mut place,
    );
    made::comparison(out, Report(refusal, place), same, moment)
}
