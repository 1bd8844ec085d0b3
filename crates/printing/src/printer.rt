// Refusals and forms on the output, and what there is to say of them on the error output.
use crate::{report, terminal};
use refusals::Refusal;
use std::io;
use std::io::Write;

// The longest text that is printed.
const MOST: u64 = 1048576;

// The two outputs, and whether a form is printed as a text.
#[derive(Drop)]
pub struct Printer<W: Write, E: Write> {
    pub out: W,
    pub error: E,
    pub as_text: bool,
}

impl<W: Write, E: Write> Printer<W, E> {
    // Why a text is refused; where it departs from the grammar, the text itself too, on the error output and after the refusal.
    pub fn refused_text(&mut self, r: Refusal, bytes: &[u8]) -> io::Result<()> {
        report::refused(&mut self.out, r)?;
        if let Refusal::NotGrammar(place) = r {
            self.out.flush()?;
            terminal::departure(&mut self.error, bytes, place)?;
        }
        Ok(())
    }

    // A form, its header the first word, as words or as a text; on the error output instead that its text is too long.
    pub fn form(&mut self, form: &[u32]) -> io::Result<()> {
        if !self.as_text {
            return report::words(&mut self.out, form);
        }
        match form.split_first() {
            Some((_, words)) => self.text(words),
            None => Ok(()),
        }
    }

    // A form of at most 4,096 words, unless its text is too long.
    fn text(&mut self, form: &[u32]) -> io::Result<()> {
        let mut sizes = [0u64; 4096];
        if sizes.len() < form.len() {
            return Ok(());
        }
        let bytes = typed::sizes(form, &mut sizes);
        if MOST < bytes {
            return too_long(&mut self.error, bytes);
        }
        rule_text::write(&mut self.out, form, bytes)?;
        self.out.write_all(b"\n")
    }
}

fn too_long<E: Write>(error: &mut E, bytes: u64) -> io::Result<()> {
    let most = typed::most_counted();
    if most < bytes {
        writeln!(
            error,
            "the text of the form has over {most} bytes, over the {MOST} that are printed"
        )
    } else {
        writeln!(
            error,
            "the text of the form has {bytes} bytes, over the {MOST} that are printed"
        )
    }
}
