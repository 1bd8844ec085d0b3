// The slots of a word's conversion. Word j has slot 2j + 1; slot 2j is for the "or" that its W needs, or the "and" that its M needs.
#![tactic(auto)]

ghost use Rattle.dialect_slots.specs.Filling.{Filled, Next};

use slots::slot;

// Word j, after those before it.
pub fn convert_word(table: &[u32], draft: &mut [u64], j: usize)
    requires { Next table.now draft.old j }
    ensures { Filled table.now draft.new j }
{
    let w = source::read(table, j);
    let kind = w.kind;
    let left = w.left;
    let right = w.right;
    let inner = 2 * j;
    let own = 2 * j + 1;
    let a = 2 * left + 1;
    let b = 2 * right + 1;
    let s = match kind {
        1..=4 => slot::pack(kind, 0, right),
        7 => slot::pack(7, 0, b),
        9 => {
            draft[inner] = slot::pack(6, a, b);
            slot::pack(10, b, inner)
        }
        11 => {
            draft[inner] = slot::pack(5, a, b);
            slot::pack(8, b, inner)
        }
        _ => slot::pack(kind, a, b),
    };
    draft[own] = s;
}
