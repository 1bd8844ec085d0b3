// The draft of a step by a sample, in one rising pass over a table's words.
#![tactic(auto)]

ghost use Rattle.std.specs.Prelude.{length};
ghost use Rattle.after_draft.specs.Filling.{Room, Filled, Next};

use after_slots::{junction, leaf, next};
use fixpoint_slots::fixpoint;
use sample_letters::reading;

// Word j, after those before it.
fn step_word(table: &[u32], sample: u32, draft: &mut [u64], j: usize)
    requires { Next sample table.now draft.old j }
    ensures { Filled sample table.now draft.new j }
{
    let w = source::read(table, j);
    let kind = w.kind;
    let left = w.left;
    let right = w.right;
    match kind {
        1..=2 => leaf(draft, j, kind, 0, kind),
        3..=4 => leaf(draft, j, kind, right, reading(sample, kind, right)),
        5..=6 => junction(draft, j, kind, left, right),
        7 => next(draft, j, right),
        8..=9 => fixpoint(draft, j, kind, 5, 6, left, right),
        _ => fixpoint(draft, j, kind, 6, 5, left, right),
    }
}

// All words.
pub fn fill(table: &[u32], sample: u32, draft: &mut [u64])
    requires { Room table.now draft.old }
    ensures { Filled sample table.now draft.new (length table.now) }
{
    for j in 1..=table.len() {
        step_word(table, sample, &mut *draft, j);
    }
}
