// How many bytes a rule has as text, in the notation in which rules are typed: `true`, `p1`, `!p1`, `Xp1`, `(p1 U p2)`.
#![tactic(auto)]

ghost use Rattle.std.specs.Prelude.{◌≡◌, ◌-◌, ◌<◌, ◌≤◌, length, get_or};
ghost use Rattle.table.specs.Node.{shape};
ghost use Rattle.table.specs.Table.{rule};
ghost use Rattle.grammar.specs.Grammar.{decimal};
ghost use Rattle.layouts.specs.Layout.{layout_of};
ghost use Rattle.typed.specs.Typed as typed;

use layouts::Layout;

// A text may be much longer than its table, since words are shared. Its bytes are counted up to this number, which stands for any above it.
const MOST: u64 = 1000000000001;

// The highest count that is exact.
pub fn most_counted() -> u64
    ensures { result ≡ typed.most - 1 }
{
    MOST - 1
}

// By kind, from 0 on, the bytes of a word without those of its letter's number and its operands; kind 0 stands for false.
const OWN: [u64; 16] = [5, 5, 4, 1, 2, 5, 5, 1, 5, 5, 5, 5, 1, 1, 1, 6];

fn layout(kind: u32) -> Layout
    requires { kind < 16 }
    ensures { result ≡ layout_of (shape kind) }
{
    if kind == 0 {
        return Layout::Constant;
    }
    layouts::of_kind(kind)
}

fn own(kind: u32) -> u64
    requires { kind < 16 }
    ensures { (result ≡ get_or typed.owns kind 0) × (result < 7) }
{
    OWN[kind as usize]
}

fn digits(n: usize) -> u64
    ensures { (result ≡ length (decimal n)) × (result < 3) }
{
    if n < 10 { 1 } else { 2 }
}

// The bytes of a word, from those of its operands.
fn word_bytes(w: u32, left: u64, right: u64) -> u64
    ensures { result ≡ typed.word_bytes w left right }
{
    let kind = word::kind(w);
    let n = own(kind);
    let a = left.min(MOST);
    let b = right.min(MOST);
    match layout(kind) {
        Layout::Constant => n,
        Layout::Letter => n + digits(word::right(w)),
        Layout::Unary => (n + b).min(MOST),
        Layout::Binary => (n + a + b).min(MOST),
    }
}

// The bytes of word number n, from those of the words so far; a number that names no such word stands for false.
fn operand(sizes: &[u64], n: usize) -> u64
    ensures { result ≡ typed.earlier sizes.now n }
{
    match n.checked_sub(1) {
        Some(i) if i < sizes.len() => sizes[i],
        _ => 5,
    }
}

// How many bytes the text of each word has; that of the rule is answered.
pub fn sizes(table: &[u32], sizes: &mut [u64]) -> u64
    requires { length table.now ≤ length sizes.old }
    ensures { result ≡ typed.counted (rule table.now) }
{
    let mut last = 5;
    for (i, w) in table.iter().enumerate() {
        let left = operand(&sizes[..i], word::left(*w));
        let right = operand(&sizes[..i], word::right(*w));
        last = word_bytes(*w, left, right);
        sizes[i] = last;
    }
    last
}
