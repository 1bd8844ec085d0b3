// One byte of a text: what it makes of the stack of what is open and of the words so far.
ghost use Rattle.std.specs.Prelude.{◌≤◌};
ghost use Rattle.placing.specs.State.{state, written};
ghost use Rattle.settling.specs.Settled as settled;
ghost use Rattle.turns.specs.Numbers as numbers;

use settling::end;
use sign_steps::{begin, follow};
use signs::sign_of;
use turns::{Reader, Turn, digit, is_digit, stuck};

// A byte after p and the number so far.
fn letter(
    n: u32,
    b: u8,
    stack: &mut [u32],
    depth: usize,
    out: &mut [u32],
    index: &mut [u16],
) -> Reader
    requires room { settled.Room stack.old (state out.old index.old) depth 1 }
    requires n_bound { n ≤ 32 }
    ensures { numbers.Makes
        result
        stack.new
        (state out.new index.new)
        (numbers.letter_words
        n
        b
        (settled.top_first stack.old depth)
        (written (state out.old index.old))) }
{
    if is_digit(b) {
        return digit(n, b, depth);
    }
    if n == 0 {
        return stuck(depth);
    }
    let w = word::pack(3, 0, n as usize);
    let o = end(&*stack, depth, &mut *out, &mut *index, w);
    follow(sign_of(b), o.number, stack, o.depth, out, index)
}

// One byte: of a symbol that lacks some, or by what may come next.
pub fn step(r: Reader, stack: &mut [u32], out: &mut [u32], index: &mut [u16], b: u8) -> Reader
    requires room { settled.Room stack.old (state out.old index.old) r.depth 1 }
    requires fit { numbers.Fit r.turn }
    ensures { numbers.Makes
        result
        stack.new
        (state out.new index.new)
        (numbers.step_words
        (numbers.viewed r stack.old (state out.old index.old))
        b) }
{
    let Reader { left, turn, depth } = r;
    if left != 0 {
        if left % 256 != b as u32 {
            return stuck(depth);
        }
        return Reader {
            left: left / 256,
            turn,
            depth,
        };
    }
    match turn {
        Turn::Operand => begin(sign_of(b), stack, depth, out, index),
        Turn::Letter(n) => letter(n, b, stack, depth, out, index),
        Turn::Ended(n) => follow(sign_of(b), n, stack, depth, out, index),
        Turn::Stuck => stuck(depth),
    }
}
