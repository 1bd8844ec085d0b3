// The folded parts of all choices, fewer chosen words first and equal counts by higher number, joined by or.
#![tactic(auto)]

ghost use Rattle.std.specs.Prelude.{ℕ, ◌^◌, ◌<◌, false};
ghost use Rattle.logic.specs.Formula.{const};
ghost use Rattle.transforms.specs.NormalForm.{choices};
ghost use Rattle.placing.specs.State.{state};
ghost use Rattle.part_sums.specs.Joining.{joined, Untrue, Joinable};
ghost use Rattle.sums.specs.Summed.{SummedOr};

use part_sums::with_part;
use sums::Sum;

// All choices among so many until-like words, none of whose parts folds to true; none where there is no room. The choices run down once for
// each count.
pub fn all(
    table: &[u32],
    positions: &[u8],
    bits: u32,
    draft: &mut [u64],
    folded: &mut [u64],
    numbers: &mut [u16],
    stack: &mut [u32],
    out: &mut [u32],
    index: &mut [u16],
) -> Option<Sum>
    requires joinable { Joinable table.now positions.now draft.old folded.old numbers.old stack.old (state out.old index.old) }
    requires by_index { ((c : ℕ) → c < 2 ^ bits → Untrue table.now c) × (bits < 32) }
    ensures { SummedOr
        (state out.old index.old)
        (state out.new index.new)
        (joined table.now (choices bits) (const false))
        result }
{
    let limit: u32 = 1 << bits;
    let mut sum = None;
    for ones in 0..=bits {
        for choice in (0..limit).rev() {
            sum = with_part(
                table,
                positions,
                choice,
                ones,
                draft,
                folded,
                numbers,
                stack,
                out,
                index,
                Some(sum),
            )?;
        }
    }
    Some(sum)
}
