// The five slots of a word in a choice's draft, and the two of them that ask whether the word is chosen.
#![tactic(auto)]

ghost use Rattle.rewriting.specs.Slots as slots;
ghost use Rattle.word_slots.specs.WordSlots as specs;

use chosen_forms::{recurring, steady};
use rewriting::{always, either, opening};

// Writes the two slots of word j that ask whether it is chosen.
pub fn choose_word(w: u32, j: usize, chosen: bool, draft: &mut [u64])
    requires { slots.Plain w × specs.Inside j draft.old }
    ensures { specs.WordChosen w j chosen draft.old draft.new }
{
    let first = 5 * j;
    draft[first] = steady(w, chosen);
    draft[first + 1] = recurring(w, chosen);
}

// Writes the slots of word j, not chosen. Those of the G and the or mean nothing where the word is neither W nor R: nothing leads to them.
pub fn fill_word(w: u32, j: usize, draft: &mut [u64])
    requires { slots.Plain w × specs.Inside j draft.old }
    ensures { specs.WordFilled w j draft.old draft.new }
{
    choose_word(w, j, false, draft);
    let first = 5 * j;
    draft[first + 2] = always(w);
    draft[first + 3] = either(w, first + 2);
    draft[first + 4] = opening(w, first + 3);
}
