// Refusals, and words as lines.
ghost use Rattle.std.specs.Prelude.{◌≡◌, ℕ, List, ◌∷◌, [], ◌++◌, OnOk, codes, decimal, length};
ghost use Rattle.std.specs.Io.KnownBytes.{Appends};
ghost use Rattle.refusals.specs.Refusals.{report_of};
ghost use Rattle.printing.specs.Report.{counted_lines, lines, refused_line};

use refusals::{Refusal, Report};
use std::io;
use std::io::Write;

// Why a table is refused.
pub fn refused<W: Write>(out: &mut W, r: Refusal) -> io::Result<()>
    ensures { OnOk result (Appends (W.contents out.old) (W.contents out.new) (refused_line (report_of r).0 (report_of r).1)) }
{
    let Report(number, place) = reports::report_of(r);
    writeln!(out, "refused {number} at {place}")
}

// How many words there are, and each on its line.
pub fn words<W: Write>(out: &mut W, form: &[u32]) -> io::Result<()>
    ensures { OnOk result (Appends (W.contents out.old) (W.contents out.new) (counted_lines form.now)) }
{
    writeln!(out, "{}", form.len())?;
    lines(out, form)
}

fn lines<W: Write>(out: &mut W, form: &[u32]) -> io::Result<()>
    ensures { OnOk result (Appends (W.contents out.old) (W.contents out.new) (lines form.now)) }
{
    for w in form {
        out.write_all(&listing::line(*w))?;
    }
    Ok(())
}
