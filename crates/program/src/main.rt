// Prints the form of a rule that is read from standard input: a written table, its words least byte first, or after the argument
// `text` a text. The form is the count in decimal, then its header and each word on its line in eight hexadecimal digits, capitals, or
// after the argument `as-text` a text. A refusal prints one line: refused, the number, at, the place.
#![tactic(auto)]

use console::argument;
use console::input::{fill, rest};
use line_end::without_line_end;
use printing::printer::Printer;
use printing::report::refused;
use std::io;
use std::io::{BufWriter, Read, Write};
use table::answer::Form;

// The form of a table, printed.
fn answer<W: Write, E: Write>(printer: &mut Printer<W, E>, table: &[u32]) -> io::Result<()> {
    let mut plain = [0u32; 131];
    let mut form = [0u32; 4097];
    let made = match pipeline::form(limits::desk(), table, &mut plain, &mut form) {
        Ok(Form::Source(n)) => plain.get(..n),
        Ok(Form::Made(n)) => form.get(..n),
        Err(r) => return refused(&mut printer.out, r),
    };
    match made {
        Some(words) => printer.form(words),
        None => Ok(()),
    }
}

// The header and at most 65 words, one more than a rule may have, so that a longer input is refused as a table.
fn answer_bytes<W: Write, E: Write>(printer: &mut Printer<W, E>, bytes: &[u8]) -> io::Result<()> {
    let mut words = [0u32; 66];
    let n = decoding::decode(bytes, &mut words);
    answer(printer, &words[..n])
}

fn table<R: Read, W: Write, E: Write>(
    reader: &mut R,
    printer: &mut Printer<W, E>,
) -> io::Result<()> {
    let mut bytes = [0u8; 264];
    let n = fill(reader, &mut bytes)?;
    let odd = rest(reader)?;
    match decoding::check_input(n, odd) {
        Err(r) => refused(&mut printer.out, r),
        Ok(()) => answer_bytes(printer, &bytes[..n]),
    }
}

fn answer_text<W: Write, E: Write>(printer: &mut Printer<W, E>, bytes: &[u8]) -> io::Result<()> {
    let mut words = [0u32; 65];
    match text::read(limits::desk(), bytes, &mut words) {
        Ok(n) => match words.get(..n) {
            Some(table) => answer(printer, table),
            None => Ok(()),
        },
        Err(r) => printer.refused_text(r, bytes),
    }
}

// A text of 1,024 bytes, its final line end, and one byte more: of an input that is longer, more than 1,024 are left.
fn text_input<R: Read, W: Write, E: Write>(
    reader: &mut R,
    printer: &mut Printer<W, E>,
) -> io::Result<()> {
    let mut bytes = [0u8; 1027];
    let n = fill(reader, &mut bytes)?;
    rest(reader)?;
    let m = without_line_end(&bytes[..n]);
    answer_text(printer, &bytes[..m])
}

fn main(rt: HostRuntime) -> io::Result<()> {
    let mut reader = rt.stdin();
    let out = BufWriter::new(rt.alloc(), rt.stdout())?;
    let mut error = rt.stderr();
    let Some(given) = argument::all(&rt) else {
        return error.write_all(b"usage: program [text] [as-text]\n");
    };
    let mut printer = Printer {
        out,
        error,
        as_text: given.as_text,
    };
    if given.text {
        text_input(&mut reader, &mut printer)?;
    } else {
        table(&mut reader, &mut printer)?;
    }
    printer.out.flush()
}
