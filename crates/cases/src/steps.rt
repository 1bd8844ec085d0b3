// One case: the call that it names.
use crate::step::Step;
use crate::{judge_steps, table_steps};
use case_input::Case;
use case_output::show;
use std::io;
use std::io::{Read, Write};

// What a number stands in place of, in some steps, is said with the head (case_input).
fn call<W: Write>(out: &mut W, case: &Case<'_>) -> io::Result<()> {
    show::first(out, case.head.step)?;
    let shown = match Step::from(case.head.step) {
        Step::Check => table_steps::check(out, case),
        Step::Classify => table_steps::classify(out, case),
        Step::Plain => table_steps::plain(out, case),
        Step::Normal => table_steps::normal(out, case),
        Step::Form => table_steps::form(out, case),
        Step::Judge => judge_steps::judge(out, case),
        Step::Row => judge_steps::row(out, case),
        Step::Text => table_steps::text(out, case),
        Step::Dialect => table_steps::dialect(out, case),
        Step::Compare => judge_steps::compare(out, case),
        Step::After => table_steps::after(out, case),
        Step::States => table_steps::states(out, case),
        Step::Moves => table_steps::moves(out, case),
    };
    shown?;
    show::end(out)
}

// The next case; whether there can be more.
pub fn one<R: Read, W: Write>(reader: &mut R, out: &mut W) -> io::Result<bool> {
    let mut table = [0u32; 16400];
    let mut samples = [0u32; 4100];
    let Some(case) = case_input::next_case(reader, &mut table, &mut samples)? else {
        return Ok(false);
    };
    call(out, &case)?;
    Ok(case.whole)
}
