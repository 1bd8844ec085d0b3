// What is written of a word at its turns: what stands before its first operand, between its operands and after them.
use crate::pieces::Pieces;
use crate::stack::{Entry, Stack, Written};

// What comes next of the word w, whose entry was on top; what is left of it goes back on the stack.
pub fn turn(out: &mut Pieces, stack: &mut Stack, entry: Entry, w: u32) {
    match entry.written {
        Written::Nothing => start(out, stack, entry.word, w),
        Written::Left => {
            stack.push(entry.word, Written::Both);
            stack.push(word::right(w), Written::Nothing);
            operator(out, w)
        }
        Written::Both => out.add(b")"),
    }
}

fn start(out: &mut Pieces, stack: &mut Stack, n: usize, w: u32) {
    let right = word::right(w);
    match word::kind(w) {
        0 | 1 => out.add(b"false"),
        2 => out.add(b"true"),
        3 if right < 10 => out.add(&[b'p', digit(right)]),
        3 if right < 100 => out.add(&[b'p', digit(right / 10), digit(right)]),
        3 => long_letter(out, b"p", right),
        4 if right < 10 => out.add(&[b'!', b'p', digit(right)]),
        4 if right < 100 => out.add(&[b'!', b'p', digit(right / 10), digit(right)]),
        4 => long_letter(out, b"!p", right),
        7 | 12 | 13 | 14 => {
            stack.push(right, Written::Nothing);
            prefix(out, w)
        }
        _ => {
            stack.push(n, Written::Left);
            stack.push(word::left(w), Written::Nothing);
            out.add(b"(")
        }
    }
}

// A letter of three to five digits, which no accepted table has. Not inlined, since it is rare.
#[inline(never)]
fn long_letter(out: &mut Pieces, sign: &[u8], n: usize) {
    out.add(sign);
    let digits = [n / 10000, n / 1000, n / 100, n / 10, n].map(digit);
    let leading = digits.iter().take_while(|d| **d == b'0').count();
    out.add(&digits[leading..]);
}

// The last digit of a number. By hand, since `write!` takes nearly as long as all the rest of a text.
fn digit(n: usize) -> u8 {
    b'0' + (n % 10) as u8
}

// The operator before one operand.
fn prefix(out: &mut Pieces, w: u32) {
    match word::kind(w) {
        7 => out.add(b"X"),
        12 => out.add(b"!"),
        13 => out.add(b"F"),
        _ => out.add(b"G"),
    }
}

// The operator between two operands.
fn operator(out: &mut Pieces, w: u32) {
    match word::kind(w) {
        5 => out.add(b" & "),
        6 => out.add(b" | "),
        8 => out.add(b" U "),
        9 => out.add(b" W "),
        10 => out.add(b" R "),
        15 => out.add(b" -> "),
        _ => out.add(b" M "),
    }
}
