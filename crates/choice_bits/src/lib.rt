// The bits of a choice, by the positions that are kept.
#![tactic(auto)]

ghost use Rattle.std.specs.Prelude.{◌<◌, ◌≡◌, length, get_or};
ghost use Rattle.logic.specs.Bit.{bit};

// Whether the choice has the bit whose position is kept at number j. Only of until-like words does the answer matter.
pub fn chosen(positions: &[u8], choice: u32, j: usize) -> bool
    requires { (j < length positions.now) × (get_or positions.now j 0 < 32) }
    ensures { result ≡ bit choice (get_or positions.now j 0) }
{
    (choice >> positions[j]) & 1 == 1
}
