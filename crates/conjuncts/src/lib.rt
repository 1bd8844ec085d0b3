// The conjuncts of a part: GF of the recurring form of each chosen least fixpoint, and FG of the steady form of each chosen greatest one.
#![tactic(auto)]

ghost use Rattle.std.specs.Prelude.{◌<◌, ◌≡◌};
ghost use Rattle.conjuncts.specs.Conjunct.{outer_slot, Conjoinable, Conjoined, Joinable, Joined};

use fixpoint_kinds::Fixpoint;
use slots::slot;
use table::kinds;

// The outer operator, over the inner one at slot i.
pub fn outer(fixpoint: Fixpoint, i: usize) -> u64
    requires { i < 1048576 }
    ensures { result ≡ outer_slot fixpoint i }
{
    match fixpoint {
        Fixpoint::Least => form_places::globally(i),
        Fixpoint::Greatest => form_places::finally(i),
    }
}

// Joins the conjunct of word j to what the slot before `next` stands for, and hands back the slot after it.
pub fn conjoin(fixpoint: Fixpoint, j: usize, draft: &mut [u64], next: usize) -> usize
    requires { Conjoinable fixpoint j draft.old next }
    ensures { Conjoined fixpoint j draft.old next draft.new result }
{
    draft[next] = fixpoint_kinds::inner(fixpoint, j);
    draft[next + 1] = outer(fixpoint, next);
    draft[next + 2] = slot::pack(kinds::AND, next - 1, next + 1);
    next + 3
}

// The conjuncts of all chosen words that are such fixpoints, in rising word number.
pub fn conjuncts(
    fixpoint: Fixpoint,
    table: &[u32],
    positions: &[u8],
    choice: u32,
    draft: &mut [u64],
    first: usize,
) -> usize
    requires { Joinable fixpoint table.now positions.now choice draft.old first }
    ensures { Joined fixpoint table.now choice draft.old first draft.new result }
{
    let mut next = first;
    for (i, &w) in table.iter().enumerate() {
        if fixpoint_kinds::is(fixpoint, w) && choice_bits::chosen(positions, choice, i + 1) {
            next = conjoin(fixpoint, i + 1, draft, next);
        }
    }
    next
}
