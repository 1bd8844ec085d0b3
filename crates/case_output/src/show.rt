// A line of numbers in decimal, a space before each but the first.
ghost use Rattle.std.specs.Prelude.{OnOk, codes, decimal};
ghost use Rattle.std.specs.Io.KnownBytes.{Appends};
ghost use Rattle.case_output.specs.Fields.{answer, field, flag};

use refusals::Report;
use std::io;
use std::io::Write;

pub fn first<W: Write>(out: &mut W, n: u32) -> io::Result<()>
    ensures { OnOk result (Appends (W.contents out.old) (W.contents out.new) (decimal n)) }
{
    write!(out, "{n}")
}

pub fn number<W: Write>(out: &mut W, n: usize) -> io::Result<()>
    ensures { OnOk result (Appends (W.contents out.old) (W.contents out.new) (field n)) }
{
    write!(out, " {n}")
}

// 1 if it is so, else 0.
pub fn flag<W: Write>(out: &mut W, so: bool) -> io::Result<()>
    ensures { OnOk result (Appends (W.contents out.old) (W.contents out.new) (flag so)) }
{
    number(out, usize::from(so))
}

// A refusal's number and place.
pub fn answer<W: Write>(out: &mut W, report: Report) -> io::Result<()>
    ensures { OnOk result (Appends (W.contents out.old) (W.contents out.new) (answer report)) }
{
    let Report(refusal, place) = report;
    number(out, refusal as usize)?;
    number(out, place)
}

// The line's end, after which the whole line is written out.
pub fn end<W: Write>(out: &mut W) -> io::Result<()>
    ensures { OnOk result (Appends (W.contents out.old) (W.contents out.new) (codes "\n")) }
{
    out.write_all(b"\n")?;
    out.flush()
}
