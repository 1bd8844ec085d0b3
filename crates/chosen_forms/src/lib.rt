// The steady and the recurring form of a word, by whether it is chosen, as slots of a choice's draft.
#![tactic(auto)]

ghost use Rattle.table.specs.Node as node;
ghost use Rattle.form_places.specs.Places as places;
ghost use Rattle.rewriting.specs.Slots as specs;
ghost use Rattle.chosen_forms.specs.Rewritten.{Rewritten};

use form_places::{Rewriting, operator};
use rewriting::kept;
use slots::slot;
use table::kinds;

// A chosen U becomes W, a chosen M becomes R, and one that is not chosen becomes false.
pub fn steady(w: u32, chosen: bool) -> u64
    requires { specs.Plain w }
    ensures { Rewritten Rewriting.Steady w chosen (places.place Rewriting.Steady (node.left w)) (places.place Rewriting.Steady (node.right w)) result }
{
    match word::kind(w) {
        kinds::UNTIL => {
            if chosen {
                operator(Rewriting::Steady, kinds::WEAK, w)
            } else {
                slot::pack(kinds::FALSE, 0, 0)
            }
        }
        kinds::STRONG => {
            if chosen {
                operator(Rewriting::Steady, kinds::RELEASE, w)
            } else {
                slot::pack(kinds::FALSE, 0, 0)
            }
        }
        _ => kept(Rewriting::Steady, w),
    }
}

// A chosen W or R becomes true, and one that is not chosen becomes U or M.
pub fn recurring(w: u32, chosen: bool) -> u64
    requires { specs.Plain w }
    ensures { Rewritten Rewriting.Recurring w chosen (places.place Rewriting.Recurring (node.left w)) (places.place Rewriting.Recurring (node.right w)) result }
{
    match word::kind(w) {
        kinds::WEAK => {
            if chosen {
                slot::pack(kinds::TRUE, 0, 0)
            } else {
                operator(Rewriting::Recurring, kinds::UNTIL, w)
            }
        }
        kinds::RELEASE => {
            if chosen {
                slot::pack(kinds::TRUE, 0, 0)
            } else {
                operator(Rewriting::Recurring, kinds::STRONG, w)
            }
        }
        _ => kept(Rewriting::Recurring, w),
    }
}
