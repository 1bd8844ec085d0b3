// What a sign makes of the stack of what is open and of the words so far: where an operand is to begin, and after one.
#![tactic(auto)]

ghost use Rattle.std.specs.Prelude.{◌≤◌};
ghost use Rattle.placing.specs.State.{state, written};
ghost use Rattle.signs.specs.Signed as signed;
ghost use Rattle.settling.specs.Settled as settled;
ghost use Rattle.turns.specs.Numbers as numbers;

use settling::end;
use signs::Sign;
use turns::{Reader, Turn, close, join, push, stuck};

// A sign where an operand is to begin.
pub fn begin(
    sign: Sign,
    stack: &mut [u32],
    depth: usize,
    out: &mut [u32],
    index: &mut [u16],
) -> Reader
    requires room { settled.Room stack.old (state out.old index.old) depth 1 }
    requires kinded { signed.Kinded sign }
    ensures { numbers.Makes
        result
        stack.new
        (state out.new index.new)
        (numbers.begin_words
        sign
        (settled.top_first stack.old depth)
        (written (state out.old index.old))) }
{
    match sign {
        Sign::Blank => Reader {
            left: 0,
            turn: Turn::Operand,
            depth,
        },
        Sign::Constant(kind, left) => {
            let o = end(&*stack, depth, out, index, word::pack(kind, 0, 0));
            Reader {
                left,
                turn: Turn::Ended(o.number),
                depth: o.depth,
            }
        }
        Sign::Letter => Reader {
            left: 0,
            turn: Turn::Letter(0),
            depth,
        },
        Sign::Prefix(kind) => push(stack, depth, word::pack(kind, 0, 0)),
        Sign::Operator(_, _) => stuck(depth),
        Sign::Open => push(stack, depth, 0),
        Sign::Close => stuck(depth),
        Sign::Unknown => stuck(depth),
    }
}

// A sign after an operand.
pub fn follow(
    sign: Sign,
    n: usize,
    stack: &mut [u32],
    depth: usize,
    out: &mut [u32],
    index: &mut [u16],
) -> Reader
    requires room { settled.Room stack.old (state out.old index.old) depth 0 }
    requires kinded { signed.Kinded sign × (n ≤ 1025) }
    ensures { numbers.Makes
        result
        stack.new
        (state out.new index.new)
        (numbers.follow_words
        sign
        n
        (settled.top_first stack.old depth)
        (written (state out.old index.old))) }
{
    match sign {
        Sign::Blank => Reader {
            left: 0,
            turn: Turn::Ended(n),
            depth,
        },
        Sign::Constant(_, _) => stuck(depth),
        Sign::Letter => stuck(depth),
        Sign::Prefix(_) => stuck(depth),
        Sign::Operator(kind, left) => join(kind, left, n, stack, depth),
        Sign::Open => stuck(depth),
        Sign::Close => close(n, &*stack, depth, out, index),
        Sign::Unknown => stuck(depth),
    }
}
