// The words that are begun or to be begun, the next one on top.

// How much of a word is written: nothing, its bracket and left operand, or all but the closing bracket.
#[derive(Clone, Copy)]
pub enum Written {
    Nothing,
    Left,
    Both,
}

// A word by its number, and how much of it is written.
#[derive(Clone, Copy)]
pub struct Entry {
    pub word: usize,
    pub written: Written,
}

// An array and how much of it is used: there is no heap for a list.
#[derive(Drop)]
pub struct Stack {
    entries: [Entry; 4096],
    depth: usize,
}

impl Stack {
    pub fn new() -> Self {
        let none = Entry {
            word: 0,
            written: Written::Nothing,
        };
        Stack {
            entries: [none; 4096],
            depth: 0,
        }
    }

    // An entry more, on top, as far as there is room.
    pub fn push(&mut self, word: usize, written: Written) {
        if self.depth < self.entries.len() {
            self.entries[self.depth] = Entry { word, written };
            self.depth += 1;
        }
    }

    // The entry on top, taken away.
    pub fn pop(&mut self) -> Option<Entry> {
        self.depth = self.depth.checked_sub(1)?;
        self.entries.get(self.depth).copied()
    }
}
