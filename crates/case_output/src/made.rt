// What a call answered: the number and the place, then its other numbers, and a sum over the whole slice that it wrote.
ghost use Rattle.std.specs.Prelude.{OnOk, ◌++◌};
ghost use Rattle.std.specs.Io.KnownBytes.{Appends};
ghost use Rattle.case_output.specs.Fields.{answer, field, flag};
ghost use Rattle.case_output.specs.Sums.{sum};

use crate::{show, sum};
use refusals::Report;
use std::io;
use std::io::Write;

// Words that were made.
pub fn words<W: Write>(out: &mut W, report: Report, words: usize, res: &[u32]) -> io::Result<()>
    ensures { OnOk result (Appends (W.contents out.old) (W.contents out.new) (answer report ++ field words ++ field (sum (λ w. w) 0 res.now))) }
{
    show::answer(out, report)?;
    show::number(out, words)?;
    sum::whole(out, res)
}

// A form: whether it is its source, before the sums.
pub fn form<W: Write>(out: &mut W, report: Report, words: usize, own: bool) -> io::Result<()>
    ensures { OnOk result (Appends (W.contents out.old) (W.contents out.new) (answer report ++ field words ++ flag own)) }
{
    show::answer(out, report)?;
    show::number(out, words)?;
    show::flag(out, own)
}

// A judgement, before its tally.
pub fn judgement<W: Write>(
    out: &mut W,
    report: Report,
    holds: bool,
    moments: usize,
    failing: usize,
) -> io::Result<()>
    ensures { OnOk result (Appends (W.contents out.old) (W.contents out.new) (answer report ++ flag holds ++ field moments ++ field failing)) }
{
    show::answer(out, report)?;
    show::flag(out, holds)?;
    show::number(out, moments)?;
    show::number(out, failing)
}

// Two recordings held against each other.
pub fn comparison<W: Write>(
    out: &mut W,
    report: Report,
    same: bool,
    moment: usize,
) -> io::Result<()>
    ensures { OnOk result (Appends (W.contents out.old) (W.contents out.new) (answer report ++ flag same ++ field moment)) }
{
    show::answer(out, report)?;
    show::flag(out, same)?;
    show::number(out, moment)
}
