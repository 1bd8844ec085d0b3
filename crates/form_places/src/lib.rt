// Where the rewritings of a word stand in a choice's draft, and the operators over them.
//
// The first slots are the two constants. Words are numbered from 1, and word j has five slots from 5 j on: its steady form, its
// recurring form, a G and an or that the opening form of W or R is made of, and its opening form.
#![tactic(auto)]

ghost use Rattle.std.specs.Prelude.{◌<◌, ◌≡◌};
ghost use Rattle.table.specs.Node as node;
ghost use Rattle.slots.specs.Slot as slots;
ghost use Rattle.form_places.specs.Places as specs;

use slots::slot;
use table::kinds;

pub const FALSE_SLOT: usize = 0;

pub const TRUE_SLOT: usize = 1;

#[derive(Clone, Copy)]
pub enum Rewriting {
    Steady,
    Recurring,
    Opening,
}

// The slot of word j rewritten.
pub fn place(rewriting: Rewriting, j: usize) -> usize
    requires { j < 1048576 }
    ensures { result ≡ specs.place rewriting j }
{
    match rewriting {
        Rewriting::Steady => 5 * j,
        Rewriting::Recurring => 5 * j + 1,
        Rewriting::Opening => 5 * j + 4,
    }
}

// G over slot i.
pub fn globally(i: usize) -> u64
    requires { i < 1048576 }
    ensures { result ≡ specs.globally_slot i }
{
    slot::pack(kinds::RELEASE, FALSE_SLOT, i)
}

// F over slot i.
pub fn finally(i: usize) -> u64
    requires { i < 1048576 }
    ensures { result ≡ specs.finally_slot i }
{
    slot::pack(kinds::UNTIL, TRUE_SLOT, i)
}

// An operator over the same rewriting of the operands of w.
pub fn operator(rewriting: Rewriting, kind: u32, w: u32) -> u64
    requires { (kind < 16) × specs.Narrow w }
    ensures { result ≡ slots.pack kind (specs.place rewriting (node.left w)) (specs.place rewriting (node.right w)) }
{
    slot::pack(
        kind,
        place(rewriting, word::left(w)),
        place(rewriting, word::right(w)),
    )
}

// X over the same rewriting of the operand of w.
pub fn next(rewriting: Rewriting, w: u32) -> u64
    requires { specs.Narrow w }
    ensures { result ≡ slots.pack 7 0 (specs.place rewriting (node.right w)) }
{
    slot::pack(kinds::NEXT, 0, place(rewriting, word::right(w)))
}
