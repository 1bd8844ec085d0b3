// Folding a draft: each slot that stands for a formula stands for the folded formula afterwards, at its own place.
#![tactic(auto)]

ghost use Rattle.std.specs.Prelude.{◌≡◌, get_or};
ghost use Rattle.folding.specs.Folded.{folded_slot, Foldable, Folded};

use fold_rules::Side;
use slots::slot;

// Slot i, or 0 where there is none: a slot that nothing leads to may hold anything.
pub fn slot_at(folded: &[u64], i: usize) -> u64
    ensures { result ≡ get_or folded.now i 0 }
{
    folded.get(i).copied().unwrap_or(0)
}

// The slot of a word over operands that are folded: that of the operand which the word is, or its own.
pub fn of(s: u64, folded: &[u64]) -> u64
    ensures { result ≡ folded_slot s folded.now }
{
    let a = slot_at(folded, slot::left(s));
    let b = slot_at(folded, slot::right(s));
    match fold_rules::of(slot::kind(s), slot::kind(a), slot::kind(b)) {
        Some(Side::Left) => a,
        Some(Side::Right) => b,
        None => s,
    }
}

// The first `count` slots of a draft, folded.
pub fn fold(draft: &[u64], count: usize, folded: &mut [u64])
    requires { Foldable draft.now count folded.old }
    ensures { Folded draft.now folded.new count }
{
    for i in 0..count {
        folded[i] = of(draft[i], folded);
    }
}
