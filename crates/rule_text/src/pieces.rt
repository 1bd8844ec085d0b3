// The pieces of a text, gathered before they go to the writer: they have a few bytes each.
use std::io;
use std::io::Write;

// The longest piece, a negated letter of five digits. In the text of an accepted table none has over five bytes.
const MOST: usize = 7;

// Bytes and how many of them are used: there is no heap for a list. Two more than 8,192, for a letter that no accepted table has.
#[derive(Drop)]
pub struct Pieces {
    bytes: [u8; 8194],
    used: usize,
}

impl Pieces {
    pub fn new() -> Self {
        Pieces {
            bytes: [0; 8194],
            used: 0,
        }
    }

    // A piece more, as far as there is room.
    #[inline(always)]
    pub fn add(&mut self, piece: &[u8]) {
        let end = self.used.saturating_add(piece.len());
        if let Some(room) = self.bytes.get_mut(self.used..end) {
            room.copy_from_slice(piece);
            self.used = end;
        }
    }

    // Whether there is room for a piece.
    pub fn have_room(&self) -> bool {
        self.used <= self.bytes.len() - MOST
    }

    // Writes what was gathered.
    pub fn hand_on<W: Write>(&mut self, out: &mut W) -> io::Result<()> {
        if let Some(gathered) = self.bytes.get(..self.used) {
            out.write_all(gathered)?;
        }
        self.used = 0;
        Ok(())
    }
}
