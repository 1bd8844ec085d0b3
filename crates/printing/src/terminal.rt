// What a terminal can show of a text.
use std::io;
use std::io::Write;

// A text as it is shown: each byte that is no printable character as a question mark; the bytes after it stay.
fn show(text: &[u8], out: &mut [u8]) {
    for (shown, b) in out.iter_mut().zip(text) {
        *shown = if b.is_ascii_graphic() || *b == b' ' {
            *b
        } else {
            b'?'
        };
    }
}

// A text, and a caret below the place at which it departs from the grammar.
pub fn departure<E: Write>(error: &mut E, bytes: &[u8], place: usize) -> io::Result<()> {
    let mut line = [b' '; 1024];
    show(bytes, &mut line);
    if let Some(shown) = line.get(..bytes.len()) {
        error.write_all(shown)?;
        error.write_all(b"\n")?;
    }
    caret(error, place)
}

fn caret<E: Write>(error: &mut E, place: usize) -> io::Result<()> {
    let spaces = [b' '; 1024];
    let Some(before) = place.checked_sub(1) else {
        return Ok(());
    };
    if let Some(before) = spaces.get(..before) {
        error.write_all(before)?;
        error.write_all(b"^\n")?;
    }
    Ok(())
}
