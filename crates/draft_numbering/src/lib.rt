// Numbering a draft: the words of the root's formula as first needed, each slot's word placed once.
#![tactic(auto)]

ghost use Rattle.table.specs.Answers.{OrNone};
ghost use Rattle.placing.specs.State.{Numbered, state, written};
ghost use Rattle.draft_numbering.specs.Numberable.{Numberable, Rooted};

use placing::put;
use slot_turns::{Turn, next};

// The number of the root's formula, if each word of it finds room. The stack has the slots on the way from the root to what is
// needed next; they fall, so it never holds more than the draft has. A slot that has a number is not looked at again.
pub fn number(
    draft: &[u64],
    root: usize,
    numbers: &mut [u16],
    stack: &mut [u32],
    out: &mut [u32],
    index: &mut [u16],
) -> Option<usize>
    requires numbered { Numbered (state out.old index.old) }
    requires numberable { Numberable
        draft.now
        root
        numbers.old
        stack.old
        (written (state out.old index.old)) }
    ensures { OrNone
        (λ n. Rooted
        draft.now
        root
        (state out.old index.old)
        (state out.new index.new)
        numbers.new
        n)
        result }
{
    let known = numbers[root] as usize;
    if 0 < known {
        return Some(known);
    }
    stack[0] = root as u32;
    let mut height = 1;
    // By a loop: what goes on the stack and off it is no range; its room and the numbers of slots are lent.
    loop {
        let top = stack[height - 1] as usize;
        match next(draft[top], &*numbers) {
            Turn::Operand(i) => {
                stack[height] = i as u32;
                height += 1;
            }
            Turn::Word(w) => {
                let n = put::put(&mut *out, &mut *index, w)?;
                numbers[top] = n as u16;
                if height == 1 {
                    return Some(n);
                }
                height -= 1;
            }
        }
    }
}
