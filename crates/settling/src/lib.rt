// The end of an operand: the words of the prefixes that wait for it are put. The stack holds a word for each prefix and each operator whose
// right operand is not yet read, and 0 for a bracket without an operator. There is room for each word, so that none is put as 0.
#![tactic(auto)]

ghost use Rattle.std.specs.Prelude.{◌≡◌, ◌+◌, ◌≤◌, suc};
ghost use Rattle.table.specs.Numbering as numbering;
ghost use Rattle.placing.specs.State.{state, written, count};
ghost use Rattle.settling.specs.Settled as settled;

use placing::put;

// An operand that has ended: its number, and how much of the stack is left.
#[derive(Clone, Copy)]
pub struct Operand {
    pub number: usize,
    pub depth: usize,
}

pub fn is_prefix(kind: u32) -> bool
    ensures { result ≡ settled.is_prefix kind }
{
    matches!(kind, 7 | 12..=14)
}

// An operand has ended: the words of the prefixes that wait for it are put.
fn settle(stack: &[u32], depth: usize, out: &mut [u32], index: &mut [u16], n: usize) -> Operand
    requires room { settled.Room stack.now (state out.old index.old) depth 0 }
    requires n_bound { n ≤ 1025 }
    ensures { settled.Settles
        stack.now
        (state out.new index.new)
        depth
        (depth + count (state out.old index.old))
        result
        (settled.settle_words
        (settled.top_first stack.now depth)
        (settled.placed_in (state out.old index.old) n)) }
{
    let mut number = n;
    for top in (0..depth).rev() {
        let kind = word::kind(stack[top]);
        if !is_prefix(kind) {
            return Operand {
                number,
                depth: top + 1,
            };
        }
        let w = word::pack(kind, 0, number);
        number = put::put(&mut *out, &mut *index, w).unwrap_or(0);
    }
    Operand { number, depth: 0 }
}

// An operand ends with the word w.
pub fn end(stack: &[u32], depth: usize, out: &mut [u32], index: &mut [u16], w: u32) -> Operand
    requires { settled.Room stack.now (state out.old index.old) depth 1 }
    ensures { settled.Settles
        stack.now
        (state out.new index.new)
        depth
        (suc (depth + count (state out.old index.old)))
        result
        (settled.settle_words
        (settled.top_first stack.now depth)
        (numbering.put (written (state out.old index.old)) w)) }
{
    let n = put::put(&mut *out, &mut *index, w).unwrap_or(0);
    settle(stack, depth, out, index, n)
}
