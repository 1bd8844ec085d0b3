// The slot of a word that a rewriting keeps, and the opening form of a word, as slots of a choice's draft.
#![tactic(auto)]

ghost use Rattle.std.specs.Prelude.{◌<◌};
ghost use Rattle.table.specs.Node as node;
ghost use Rattle.form_places.specs.Places as places;
ghost use Rattle.rewriting.specs.Slots as specs;

use form_places::{Rewriting, globally, next, operator, place};
use slots::slot;
use table::kinds;

// The operator of w, over the same rewriting of its operands: what most words become.
pub fn kept(rewriting: Rewriting, w: u32) -> u64
    requires { specs.Plain w }
    ensures { specs.KeptSlot w (places.place rewriting (node.left w)) (places.place rewriting (node.right w)) result }
{
    let kind = word::kind(w);
    match kind {
        kinds::FALSE..=kinds::TRUE => slot::pack(kind, 0, 0),
        kinds::LETTER..=kinds::NOT_LETTER => slot::pack(kind, 0, word::right(w)),
        kinds::NEXT => next(rewriting, w),
        kinds::AND..=kinds::STRONG => operator(rewriting, kind, w),
        _ => 0,
    }
}

// W becomes a U (b or G a'), and R becomes (a or G b') M b, with a' and b' the steady forms: `either` is the slot of the or.
pub fn opening(w: u32, either: usize) -> u64
    requires { specs.Plain w × (either < 1048576) }
    ensures { specs.OpeningSlot w either result }
{
    match word::kind(w) {
        kinds::WEAK => slot::pack(
            kinds::UNTIL,
            place(Rewriting::Opening, word::left(w)),
            either,
        ),
        kinds::RELEASE => slot::pack(
            kinds::STRONG,
            either,
            place(Rewriting::Opening, word::right(w)),
        ),
        _ => kept(Rewriting::Opening, w),
    }
}

// The G of that or: over the steady form of the left operand of W, and of the right operand of R.
pub fn always(w: u32) -> u64
    requires { specs.Plain w }
    ensures { specs.AlwaysSlot w result }
{
    if word::kind(w) == kinds::WEAK {
        globally(place(Rewriting::Steady, word::left(w)))
    } else {
        globally(place(Rewriting::Steady, word::right(w)))
    }
}

// The or: of the opening form of the other operand, and the G at slot `always`.
pub fn either(w: u32, always: usize) -> u64
    requires { specs.Plain w × (always < 1048576) }
    ensures { specs.EitherSlot w always result }
{
    if word::kind(w) == kinds::WEAK {
        slot::pack(kinds::OR, place(Rewriting::Opening, word::right(w)), always)
    } else {
        slot::pack(kinds::OR, place(Rewriting::Opening, word::left(w)), always)
    }
}
