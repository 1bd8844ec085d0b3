// What the reader of a text holds, and what a sign or a digit makes of it: the stack of what is open, and what may come next.
// The stack holds a word for each prefix and each operator whose right operand is not yet read, and 0 for a bracket without an operator.
#![tactic(auto)]

ghost use Rattle.std.specs.Prelude.{◌≡◌, List, ◌∷◌, ℕ, ◌+◌, ◌*◌, ◌-◌, ◌≤◌, ◌<◌, suc, length};
ghost use Rattle.placing.specs.State.{state, written};
ghost use Rattle.grammar.specs.Reader as machine;
ghost use Rattle.settling.specs.Settled as settled;
ghost use Rattle.turns.specs.Numbers as numbers;

use settling::{end, is_prefix};

// What may come next: an operand; the digits after p, with the number so far; what follows an operand, with its number; or nothing.
#[derive(Clone, Copy)]
pub enum Turn {
    Operand,
    Letter(u32),
    Ended(usize),
    Stuck,
}

// `left` has the bytes that a symbol still lacks, the next one lowest.
#[derive(Clone, Copy)]
pub struct Reader {
    pub left: u32,
    pub turn: Turn,
    pub depth: usize,
}

pub fn is_digit(b: u8) -> bool
    ensures { result ≡ machine.is_digit b }
{
    matches!(b, b'0'..=b'9')
}

// No rule can come of it any more.
pub fn stuck(depth: usize) -> Reader
    ensures { result ≡ record { left = 0; turn = Turn.Stuck; depth = depth } }
{
    Reader {
        left: 0,
        turn: Turn::Stuck,
        depth,
    }
}

// One entry more, and an operand is to begin.
pub fn push(stack: &mut [u32], depth: usize, e: u32) -> Reader
    requires { depth < length stack.old }
    ensures { (result ≡ record { left = 0; turn = Turn.Operand; depth = suc depth })
        × (settled.top_first stack.new (suc depth) ≡ e ∷ settled.top_first stack.old depth) }
{
    stack[depth] = e;
    Reader {
        left: 0,
        turn: Turn::Operand,
        depth: depth + 1,
    }
}

// A two-sided operator after an operand, which must be the first in its bracket.
pub fn join(kind: u32, left: u32, n: usize, stack: &mut [u32], depth: usize) -> Reader
    requires { (kind < 16) × (n ≤ 1025) × (depth ≤ length stack.old) }
    ensures { ((t : List ℕ) → numbers.words result.left result.turn (settled.top_first stack.new result.depth) t
        ≡ numbers.join_words kind left n (settled.top_first stack.old depth) t)
        × numbers.Fit result.turn }
{
    if depth == 0 {
        return stuck(depth);
    }
    let top = depth - 1;
    if stack[top] != 0 {
        return stuck(depth);
    }
    stack[top] = word::pack(kind, n, 0);
    Reader {
        left,
        turn: Turn::Operand,
        depth,
    }
}

// A closing bracket after an operand, which must be the second in its bracket.
pub fn close(n: usize, stack: &[u32], depth: usize, out: &mut [u32], index: &mut [u16]) -> Reader
    requires room { settled.Room stack.now (state out.old index.old) depth 0 }
    requires n_bound { n ≤ 1025 }
    ensures { numbers.Makes
        result
        stack.now
        (state out.new index.new)
        (numbers.close_words
        n
        (settled.top_first stack.now depth)
        (written (state out.old index.old))) }
{
    if depth == 0 {
        return stuck(depth);
    }
    let top = depth - 1;
    let e = stack[top];
    if e == 0 {
        return stuck(depth);
    }
    let kind = word::kind(e);
    if is_prefix(kind) {
        return stuck(depth);
    }
    let o = end(stack, top, out, index, word::pack(kind, word::left(e), n));
    Reader {
        left: 0,
        turn: Turn::Ended(o.number),
        depth: o.depth,
    }
}

// A digit after p and the number so far: the letters are 1 to 32.
pub fn digit(n: u32, b: u8, depth: usize) -> Reader
    requires { (n ≤ 32) × (48 ≤ b) × (b ≤ 57) }
    ensures { ((s t : List ℕ) → numbers.words result.left result.turn s t ≡ numbers.digit_words (10 * n + (b - 48)) s t)
        × numbers.Fit result.turn
        × (result.depth ≡ depth) }
{
    let m = 10 * n + u32::from(b - b'0');
    if m == 0 {
        return stuck(depth);
    }
    if 32 < m {
        return stuck(depth);
    }
    Reader {
        left: 0,
        turn: Turn::Letter(m),
        depth,
    }
}
