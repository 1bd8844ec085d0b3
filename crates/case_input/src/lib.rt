// What the case runner reads: the cases, each a head, a table and a recording.
#![tactic(auto)]

ghost use Rattle.std.specs.Prelude.{◌≤◌, length, IfOk};

pub mod head;

use head::Head;
use std::io;
use std::io::Read;

// Of a comparison the table is the first recording's samples, and of a text its bytes.
#[derive(Clone, Copy)]
pub struct Case<'a> {
    pub head: Head,
    pub table: &'a [u32],
    pub samples: &'a [u32],
    // Whether the input had all its samples; if not, it is the last.
    pub whole: bool,
}

// Words of the input, until the slice is full, and how many there were; the others are then 0. Of a slice over 16,400 words nothing is read.
fn words<R: Read>(reader: &mut R, out: &mut [u32]) -> io::Result<usize>
    ensures { IfOk result (λ n. n ≤ length out.new) }
{
    let mut bytes = [0u8; 65600];
    if 16400 < out.len() {
        return Ok(0);
    }
    let bytes = &mut bytes[..4 * out.len()];
    let got = console::input::fill(reader, bytes)?;
    decoding::decode(bytes, out);
    Ok(got / 4)
}

// The lowest byte of each word; None if there is no room for so many.
pub fn bytes<'a>(words: &[u32], out: &'a mut [u8]) -> Option<&'a [u8]> {
    let bytes = out.get_mut(..words.len())?;
    for (byte, word) in bytes.iter_mut().zip(words) {
        *byte = word.to_le_bytes()[0];
    }
    Some(bytes)
}

// Word k, the header being number 0, of a chain of n words: letter 1, then X of the word before.
fn chain_word(k: usize, n: usize) -> u32 {
    if k == 0 || n < k {
        0
    } else if k == 1 {
        0x30000001
    } else {
        0x70000000 + ((k - 1) % 16384) as u32
    }
}

fn chain(table: &mut [u32], n: usize) {
    for (k, w) in table.iter_mut().enumerate() {
        *w = chain_word(k, n);
    }
}

// The table of a case: its header, a chain, then the listed words, one of them replaced; None if the slice or the input has not so many words.
fn table<'a, R: Read>(
    reader: &mut R,
    all: &'a mut [u32],
    head: &Head,
) -> io::Result<Option<&'a [u32]>> {
    let Some(table) = all.get_mut(..head.chain.saturating_add(head.listed)) else {
        return Ok(None);
    };
    chain(table, head.chain);
    if 0 < head.listed {
        let header = words(reader, &mut table[..1])?;
        let others = words(reader, &mut table[head.chain + 1..])?;
        if header + others < head.listed {
            return Ok(None);
        }
    }
    if let Some((i, word)) = head.replaced {
        if i < table.len() {
            table[i] = word;
        }
    }
    Ok(Some(table))
}

// One number after another that looks random.
fn next(x: u64) -> u64 {
    (x % 2147483648 * 1103515245 + 12345) % 2147483648
}

// Letter 1 holds mostly, letter 2 seldom, letter 3 half the time.
fn sample(x: u64) -> u32 {
    let mostly = u32::from(x / 65536 % 8 != 0);
    let seldom = u32::from(x / 524288 % 64 == 0);
    let half = u32::from(x / 256 % 2 != 0);
    mostly + 2 * seldom + 4 * half
}

// Samples that look random.
fn record(samples: &mut [u32], seed: u32) {
    let mut x = u64::from(seed);
    for v in samples {
        x = next(x);
        *v = sample(x);
    }
}

// The samples of a recording: of the input, or if there is a seed those that look random; whether there were so many. Where the input ends among
// them the others are 0: the case is run all the same, and is the last.
fn samples<R: Read>(reader: &mut R, samples: &mut [u32], seed: Option<u32>) -> io::Result<bool> {
    match seed {
        Some(seed) => {
            record(samples, seed);
            Ok(true)
        }
        None => Ok(words(reader, samples)? == samples.len()),
    }
}

// The next case, in room that is lent for its table and its samples; None if there is no more, or not room enough.
pub fn next_case<'a, R: Read>(
    reader: &mut R,
    table_room: &'a mut [u32],
    samples_room: &'a mut [u32],
) -> io::Result<Option<Case<'a>>> {
    let mut head = [0u32; 19];
    if words(reader, &mut head)? < 19 {
        return Ok(None);
    }
    let head = Head::from(head);
    let Some(table) = table(reader, table_room, &head)? else {
        return Ok(None);
    };
    let Some(recorded) = samples_room.get_mut(..head.samples) else {
        return Ok(None);
    };
    let whole = samples(reader, recorded, head.seed)?;
    Ok(Some(Case {
        head,
        table,
        samples: recorded,
        whole,
    }))
}
