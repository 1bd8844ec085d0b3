// The words of a form: true alone where some part folds to it, and else the sum of the parts.
#![tactic(auto)]

ghost use Rattle.transforms.specs.NormalForm.{normal_form};
ghost use Rattle.transforms.specs.Folding.{fold};
ghost use Rattle.table.specs.Answers.{OrNone};
ghost use Rattle.table.specs.Numbering.{build};
ghost use Rattle.table.specs.Table.{rule};
ghost use Rattle.table.specs.Steps as steps;
ghost use Rattle.placing.specs.State.{state, written, Placing};
ghost use Rattle.form_table.specs.Formable.{Formable};

use placing::put;
use table::kinds;

// All choices among the until-like words, of which there are as many as bits. The answer is how many words the form has, none where there is
// no room for it.
pub fn form(
    table: &[u32],
    positions: &[u8],
    bits: u32,
    draft: &mut [u64],
    folded: &mut [u64],
    numbers: &mut [u16],
    stack: &mut [u32],
    out: &mut [u32],
    index: &mut [u16],
) -> Option<usize>
    requires { Formable table.now positions.now bits draft.old folded.old numbers.old stack.old (state out.old index.old) }
    ensures { OrNone
        (λ n. Placing
        (state out.old index.old)
        (state out.new index.new)
        (build
        (written (state out.old index.old))
        (fold (normal_form (steps.fixpoints table.now) (rule table.now))))
        n)
        result }
{
    filling::fill_words(table, draft);
    if true_parts::any(table, positions, bits, draft, folded) {
        return put::put(out, index, word::pack(kinds::TRUE, 0, 0));
    }
    let sum = choices::all(
        table, positions, bits, draft, folded, numbers, stack, out, index,
    );
    closed_sums::close(sum, out, index)
}
