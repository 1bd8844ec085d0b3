// A rule as text, word by word: what is begun of it stands on a stack.
#![tactic(auto)]

mod pieces;
mod stack;
mod writing;

use pieces::Pieces;
use stack::{Stack, Written};
use std::io;
use std::io::Write;

// Word number n, or where there is none the word 0, which stands for false.
fn word_of(table: &[u32], n: usize) -> u32 {
    match n.checked_sub(1) {
        Some(i) if i < table.len() => table[i],
        _ => 0,
    }
}

// Writes the text of a table's last word, which has so many bytes at most.
pub fn write<W: Write>(out: &mut W, table: &[u32], bytes: u64) -> io::Result<()> {
    let mut stack = Stack::new();
    stack.push(table.len(), Written::Nothing);
    let mut pieces = Pieces::new();
    // By a count and not `while let`: no measure but the text says that the turns end. Each writes a byte at least.
    for _ in 0..bytes {
        let Some(entry) = stack.pop() else {
            break;
        };
        if !pieces.have_room() {
            pieces.hand_on(out)?;
        }
        writing::turn(&mut pieces, &mut stack, entry, word_of(table, entry.word));
    }
    pieces.hand_on(out)
}

#[cfg(test)]
mod tests;
