// Whether every word but the last is an operand, by the marks.
#![tactic(auto)]

ghost use Rattle.std.specs.Prelude.{◌≡◌, ◌-◌, ◌≤◌, length};
ghost use Rattle.refusals.specs.Refusals.{first};
ghost use Rattle.table.specs.Checks.{use_checks};
ghost use Rattle.use_faults.specs.Marks.{Marked};

use refusals::Refusal;

pub fn use_fault(words: &[u32], marks: &[bool]) -> Result<(), Refusal>
    requires { (length words.now ≤ length marks.now) × Marked words.now marks.now }
    ensures { result ≡ first (use_checks words.now 1 (length words.now - 1)) }
{
    for n in 1..words.len() {
        if !marks[n] {
            return Err(Refusal::Unused(n));
        }
    }
    Ok(())
}
