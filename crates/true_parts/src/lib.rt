// Whether the part of some choice folds to true: then so does the form.
#![tactic(auto)]

ghost use Rattle.std.specs.Prelude.{◌<◌, ◌≡◌, length};
ghost use Rattle.table.specs.Steps.{fixpoints};
ghost use Rattle.choosing.specs.Filled.{Laid};
ghost use Rattle.parts.specs.Parts.{Ready};
ghost use Rattle.true_parts.specs.Looked.{Opened, Looked};

use slots::slot;
use table::kinds;

// By a look at the choice of all words first: its opening form is the truest, so where that does not fold to true no part does.
pub fn any(
    table: &[u32],
    positions: &[u8],
    bits: u32,
    draft: &mut [u64],
    folded: &mut [u64],
) -> bool
    requires ready { Ready table.now positions.now draft.old folded.old }
    requires bits_value { (bits ≡ length (fixpoints table.now)) × (bits < 32) }
    ensures looked { Looked table.now bits result }
    ensures laid { Laid table.now draft.new (length table.now) }
{
    opened(table, positions, (1 << bits) - 1, draft, folded)
        && each(table, positions, bits, draft, folded)
}

// Whether the rule's opening form by a choice folds to true.
pub fn opened(
    table: &[u32],
    positions: &[u8],
    choice: u32,
    draft: &mut [u64],
    folded: &mut [u64],
) -> bool
    requires { Ready table.now positions.now draft.old folded.old }
    ensures opened { Opened table.now choice result }
    ensures laid { Laid table.now draft.new (length table.now) }
{
    choosing::choose_words(table, positions, choice, draft);
    let last = 5 * table.len() + 4;
    folding::fold(draft, last + 1, folded);
    slot::kind(folded[last]) == kinds::TRUE
}

// Choice by choice.
pub fn each(
    table: &[u32],
    positions: &[u8],
    bits: u32,
    draft: &mut [u64],
    folded: &mut [u64],
) -> bool
    requires { Ready table.now positions.now draft.old folded.old × (bits < 32) }
    ensures looked { Looked table.now bits result }
    ensures laid { Laid table.now draft.new (length table.now) }
{
    let limit: u32 = 1 << bits;
    for choice in 0..limit {
        let root = parts::part(table, positions, choice, draft, folded);
        if slot::kind(folded[root]) == kinds::TRUE {
            return true;
        }
    }
    false
}
