// The part of a choice, drafted and folded; and a slot numbered from no numbers.
#![tactic(auto)]

ghost use Rattle.std.specs.Prelude.{length};
ghost use Rattle.logic.specs.Formula.{Formula};
ghost use Rattle.table.specs.Answers.{OrNone};
ghost use Rattle.table.specs.Numbering.{build};
ghost use Rattle.placing.specs.State.{state, written, Placing};
ghost use Rattle.drafts.specs.Drafted.{Drafted};
ghost use Rattle.choosing.specs.Filled.{Laid};
ghost use Rattle.parts.specs.Parts.{folded_part, Ready, Numberless};

// Fills and folds the draft of a choice, and hands back the slot of its part. The words stay laid out, for the next choice.
pub fn part(
    table: &[u32],
    positions: &[u8],
    choice: u32,
    draft: &mut [u64],
    folded: &mut [u64],
) -> usize
    requires { Ready table.now positions.now draft.old folded.old }
    ensures drafted { Drafted folded.new (folded_part table.now choice) result }
    ensures laid { Laid table.now draft.new (length table.now) }
{
    let root = filling::fill(table, positions, choice, draft);
    folding::fold(draft, root + 1, folded);
    root
}

// The number of the root's formula, or none where it finds no room.
pub fn number(
    folded: &[u64],
    root: usize,
    numbers: &mut [u16],
    stack: &mut [u32],
    out: &mut [u32],
    index: &mut [u16],
) -> Option<usize>
    requires { Numberless folded.now root numbers.old stack.old (state out.old index.old) }
    ensures { (φ : Formula) → Drafted folded.now φ root → OrNone
        (λ n. Placing
        (state out.old index.old)
        (state out.new index.new)
        (build (written (state out.old index.old)) φ)
        n)
        result }
{
    numbers.fill(0);
    draft_numbering::number(folded, root, numbers, stack, out, index)
}
