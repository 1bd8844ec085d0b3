// The number of a sum that all parts were joined to.
#![tactic(auto)]

ghost use Rattle.logic.specs.Formula.{Formula};
ghost use Rattle.table.specs.Answers.{OrNone};
ghost use Rattle.table.specs.Numbering.{build};
ghost use Rattle.placing.specs.State.{State, state, written, Numbered, Placing};
ghost use Rattle.sums.specs.Summed.{SummedOr};

use placing::put;
use sums::Sum;
use table::kinds;

// The number of a sum of all parts, none where there was no room for it or is none for its word. One of false parts only is the word false.
pub fn close(sum: Option<Sum>, out: &mut [u32], index: &mut [u16]) -> Option<usize>
    requires { Numbered (state out.old index.old) }
    ensures { (s₀ : State) (χ : Formula) → SummedOr s₀ (state out.old index.old) χ sum → OrNone
        (λ n. Placing
        s₀
        (state out.new index.new)
        (build (written s₀) χ)
        n)
        result }
{
    let sum = sum?;
    match sum {
        None => put::put(out, index, word::pack(kinds::FALSE, 0, 0)),
        Some(n) => Some(n),
    }
}
