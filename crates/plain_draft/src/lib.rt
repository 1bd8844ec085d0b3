// The plain form of a written word and of its denial: two functions that call each other at not and implies, the word's number falling at each
// call, and fill a draft. Its slots 0 and 1 are the constants; word j has slot 2j for its form, slot 2j + 1 for that of its denial. 0: not yet filled.
#![tactic(auto)]

ghost use Rattle.std.specs.Prelude.{true, false};
ghost use Rattle.plain_draft.specs.Forming.{Asked, Formed};

use slots::slot;
use source::kinds;

// The slots of the two constants.
pub const FALSE: usize = 0;

pub const TRUE: usize = 1;

// Two functions, and not one with a flag: the plain form is specified as two that call each other (docs/DECISIONS.md, 106).
// The slot at which the plain form of word j stands.
#[cycle(denied_wanted)]
pub fn wanted(table: &[u32], draft: &mut [u64], j: usize) -> usize
    requires { Asked table.now draft.old j }
    ensures { Formed true table.now j draft.old draft.new result }
{
    let slot = 2 * j;
    if draft[slot] != 0 {
        return slot;
    }
    let w = source::read(table, j);
    let kind = w.kind;
    let mut a = 0;
    let mut b = w.right;
    if kind != 12 {
        if 4 < kind {
            b = wanted(table, draft, w.right);
            match kind {
                7 => {}
                13 => a = TRUE,
                14 => a = FALSE,
                15 => a = denied(table, draft, w.left),
                _ => a = wanted(table, draft, w.left),
            }
        }
    } else {
        return denied(table, draft, b);
    }
    slot::store(draft, slot, kinds::plain(kind), a, b)
}

// The slot at which the plain form of the denial of word j stands.
#[cycle(denied_wanted)]
pub fn denied(table: &[u32], draft: &mut [u64], j: usize) -> usize
    requires { Asked table.now draft.old j }
    ensures { Formed false table.now j draft.old draft.new result }
{
    let slot = 2 * j + 1;
    if draft[slot] != 0 {
        return slot;
    }
    let w = source::read(table, j);
    let kind = w.kind;
    let mut a = 0;
    let mut b = w.right;
    if kind != 12 {
        if 4 < kind {
            b = denied(table, draft, w.right);
            match kind {
                7 => {}
                13 => a = FALSE,
                14 => a = TRUE,
                15 => a = wanted(table, draft, w.left),
                _ => a = denied(table, draft, w.left),
            }
        }
    } else {
        return wanted(table, draft, b);
    }
    slot::store(draft, slot, kinds::dual(kind), a, b)
}
