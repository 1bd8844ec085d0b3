// The folded part of one choice, joined by or to the sum of those before it.
#![tactic(auto)]

ghost use Rattle.std.specs.Prelude.{[], ◌∷◌, length};
ghost use Rattle.transforms.specs.NormalForm.{chosen_in};
ghost use Rattle.placing.specs.State.{state};
ghost use Rattle.choosing.specs.Filled.{Laid};
ghost use Rattle.sums.specs.Summed.{SmallOr, Grown};
ghost use Rattle.part_sums.specs.Joining.{joined, Untrue, Joinable};

use slots::slot;
use sums::Sum;
use table::kinds;

// The sum with the part of the choice joined to it, if the choice has so many chosen words; none where there is no room, or was none for the
// sum. A part that folds to false adds nothing.
pub fn with_part(
    table: &[u32],
    positions: &[u8],
    choice: u32,
    ones: u32,
    draft: &mut [u64],
    folded: &mut [u64],
    numbers: &mut [u16],
    stack: &mut [u32],
    out: &mut [u32],
    index: &mut [u16],
    sum: Option<Sum>,
) -> Option<Sum>
    requires joinable { Joinable table.now positions.now draft.old folded.old numbers.old stack.old (state out.old index.old) }
    requires untrue { Untrue table.now choice × SmallOr sum }
    ensures grown { Grown
        (joined table.now (chosen_in (choice ∷ []) ones))
        (state out.old index.old)
        (state out.new index.new)
        sum
        result }
    ensures laid { Laid table.now draft.new (length table.now) }
{
    if choice.count_ones() != ones {
        return sum;
    }
    sum?;
    let root = parts::part(table, positions, choice, draft, folded);
    if slot::kind(folded[root]) == kinds::FALSE {
        return sum;
    }
    let joined = sums::join(sum, folded, root, numbers, stack, out, index)?;
    Some(Some(joined))
}
