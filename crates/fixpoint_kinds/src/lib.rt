// The two kinds of fixpoints: which words are such, and the inner operator of their conjuncts.
#![tactic(auto)]

ghost use Rattle.std.specs.Prelude.{◌<◌, ◌≡◌};
ghost use Rattle.logic.specs.Formula.{Formula};
ghost use Rattle.rewriting.specs.Slots.{word_by};
ghost use Rattle.fixpoint_kinds.specs.Kinds.{picks, form_slot, inner_slot};

use form_places::Rewriting;
use table::kinds;

#[derive(Clone, Copy)]
pub enum Fixpoint {
    Least,
    Greatest,
}

// U and M are least fixpoints, W and R greatest ones.
pub fn is(fixpoint: Fixpoint, w: u32) -> bool
    ensures { (a b : Formula) → result ≡ picks fixpoint (word_by w a b) }
{
    let kind = word::kind(w);
    match fixpoint {
        Fixpoint::Least => matches!(kind, kinds::UNTIL | kinds::STRONG),
        Fixpoint::Greatest => matches!(kind, kinds::WEAK | kinds::RELEASE),
    }
}

// The inner operator of the conjunct of word j, over the word's form.
pub fn inner(fixpoint: Fixpoint, j: usize) -> u64
    requires { form_slot fixpoint j < 1048576 }
    ensures { result ≡ inner_slot fixpoint (form_slot fixpoint j) }
{
    match fixpoint {
        Fixpoint::Least => form_places::finally(form_places::place(Rewriting::Recurring, j)),
        Fixpoint::Greatest => form_places::globally(form_places::place(Rewriting::Steady, j)),
    }
}
