// The parts so far, joined by or: the number of a sum, and one part more.
#![tactic(auto)]

ghost use Rattle.logic.specs.Formula.{Formula, disj};
ghost use Rattle.transforms.specs.Folding.{fold_binary};
ghost use Rattle.drafts.specs.Drafted.{Drafted};
ghost use Rattle.placing.specs.State.{state};
ghost use Rattle.parts.specs.Parts.{Numberless};
ghost use Rattle.sums.specs.Summed.{at_of, Standing, SmallOr, Grown};

use placing::put;
use table::kinds;

// The number of a sum; none where all its parts so far are false, of which no word is placed.
pub type Sum = Option<usize>;

// The number of the sum with the formula of the root joined to it, which is no constant; none where there is no room, or was none for the sum.
pub fn join(
    sum: Option<Sum>,
    folded: &[u64],
    root: usize,
    numbers: &mut [u16],
    stack: &mut [u32],
    out: &mut [u32],
    index: &mut [u16],
) -> Option<usize>
    requires { Numberless folded.now root numbers.old stack.old (state out.old index.old) × SmallOr sum }
    ensures { (φ : Formula) → Drafted folded.now φ root → Standing φ → Grown
        (λ χ. fold_binary disj χ φ)
        (state out.old index.old)
        (state out.new index.new)
        sum
        (at_of result) }
{
    let before = sum?;
    let p = parts::number(folded, root, numbers, stack, out, index)?;
    match before {
        None => Some(p),
        Some(n) => put::put(out, index, word::pack(kinds::OR, n, p)),
    }
}
