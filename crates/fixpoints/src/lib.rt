// The until-like words, numbered from bit 0 upward in rising word number.
#![tactic(auto)]

ghost use Rattle.std.specs.Prelude.{◌≡◌, length};
ghost use Rattle.table.specs.Steps.{fixpoints};
ghost use Rattle.table.specs.StepChecks.{is_fixpoint_word};
ghost use Rattle.fixpoints.specs.Positions.{Keepable, Kept};

use table::kinds;

pub fn is_fixpoint(w: u32) -> bool
    ensures { result ≡ is_fixpoint_word w }
{
    matches!(word::kind(w), kinds::UNTIL..=kinds::STRONG)
}

// Keeps at each word's number how many until-like words stand before it, which is the bit number of an until-like word, and hands back how
// many there are.
pub fn count(table: &[u32], positions: &mut [u8]) -> u32
    requires { Keepable table.now positions.old }
    ensures { (result ≡ length (fixpoints table.now)) × Kept table.now positions.new (length table.now) }
{
    let mut bits: u8 = 0;
    for (i, &w) in table.iter().enumerate() {
        positions[i + 1] = bits;
        bits += u8::from(is_fixpoint(w));
    }
    u32::from(bits)
}
