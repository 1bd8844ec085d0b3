// A choice's draft: the three forms of each word, and the rule's part after them.
#![tactic(auto)]

ghost use Rattle.std.specs.Prelude.{length};
ghost use Rattle.transforms.specs.NormalForm as normal;
ghost use Rattle.table.specs.Table.{rule};
ghost use Rattle.table.specs.Steps as steps;
ghost use Rattle.drafts.specs.Drafted.{Drafted};
ghost use Rattle.choosing.specs.Filled.{Roomy, Laid, Fillable};

use fixpoint_kinds::Fixpoint;
use slots::slot;
use table::kinds;

// The slots of the two constants and of all words, none of them chosen.
pub fn fill_words(table: &[u32], draft: &mut [u64])
    requires { Roomy table.now draft.old }
    ensures { Laid table.now draft.new (length table.now) }
{
    draft[form_places::FALSE_SLOT] = slot::pack(kinds::FALSE, 0, 0);
    draft[form_places::TRUE_SLOT] = slot::pack(kinds::TRUE, 0, 0);
    for (i, &w) in table.iter().enumerate() {
        word_slots::fill_word(w, i + 1, draft);
    }
}

// Fills the draft of a choice, and hands back the slot of its part. The words stay laid out, for the next choice.
pub fn fill(table: &[u32], positions: &[u8], choice: u32, draft: &mut [u64]) -> usize
    requires { Fillable table.now positions.now draft.old }
    ensures drafted { Drafted draft.new (normal.part (steps.fixpoints table.now) (rule table.now) choice) result }
    ensures laid { Laid table.now draft.new (length table.now) }
{
    choosing::choose_words(table, positions, choice, draft);
    let opened = 5 * table.len() + 5;
    let recurring = conjuncts::conjuncts(Fixpoint::Least, table, positions, choice, draft, opened);
    let steady = conjuncts::conjuncts(
        Fixpoint::Greatest,
        table,
        positions,
        choice,
        draft,
        recurring,
    );
    steady - 1
}
