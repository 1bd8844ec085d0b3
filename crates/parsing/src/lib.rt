// A text read byte by byte: the place at which it departs from the grammar, or the words of its rule.
#![tactic(auto)]

ghost use Rattle.std.specs.Prelude.{◌≡◌};
ghost use Rattle.placing.specs.State.{state};
ghost use Rattle.turns.specs.Numbers.{is_stuck, is_ended};
ghost use Rattle.parsing.specs.Parsed.{Fresh, Parsed, OkOrPlace};

use scanning::reader;
use turns::{Reader, Turn};

fn is_stuck(t: Turn) -> bool
    ensures { result ≡ is_stuck t }
{
    matches!(t, Turn::Stuck)
}

fn is_ended(t: Turn) -> bool
    ensures { result ≡ is_ended t }
{
    matches!(t, Turn::Ended(_))
}

// An Err is the place at which the text departs from the grammar; otherwise it is a rule, whose words then stand in `out`. A symbol makes
// at most one word and has at least one byte, so that the words never run out; the end of the text is read as a space.
pub fn parse(
    text: &[u8],
    stack: &mut [u32],
    out: &mut [u32],
    index: &mut [u16],
) -> Result<(), usize>
    requires { Fresh text.now stack.old (state out.old index.old) }
    ensures { OkOrPlace (λ n. Parsed text.now (state out.new index.new) n) result }
{
    let mut r = Reader {
        left: 0,
        turn: Turn::Operand,
        depth: 0,
    };
    for (i, b) in text.iter().enumerate() {
        r = reader::step(r, &mut *stack, &mut *out, &mut *index, *b);
        let turn = r.turn;
        if is_stuck(turn) {
            return Err(i + 1);
        }
    }
    let q = reader::step(r, &mut *stack, &mut *out, &mut *index, b' ');
    let turn = q.turn;
    let depth = q.depth;
    let past = text.len() + 1;
    if depth != 0 {
        return Err(past);
    }
    if is_ended(turn) {
        return Ok(());
    }
    Err(past)
}
