// What a choice changes in the draft of a rule: the slots that ask whether their word is chosen.
#![tactic(auto)]

ghost use Rattle.std.specs.Prelude.{length};
ghost use Rattle.choosing.specs.Filled.{Chosen, Fillable};

// The slots that ask whether their word is chosen, by the choice: those of words that are not until-like do not.
pub fn choose_words(table: &[u32], positions: &[u8], choice: u32, draft: &mut [u64])
    requires { Fillable table.now positions.now draft.old }
    ensures { Chosen table.now choice draft.new (length table.now) }
{
    for (i, &w) in table.iter().enumerate() {
        if fixpoints::is_fixpoint(w) {
            let chosen = choice_bits::chosen(positions, choice, i + 1);
            word_slots::choose_word(w, i + 1, chosen, draft);
        }
    }
}
