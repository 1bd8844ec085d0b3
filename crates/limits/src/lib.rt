// The limits that a house states: whether each is within its range, and those of a desk.
#![tactic(auto)]

ghost use Rattle.std.specs.Prelude.{◌≡◌};
ghost use Rattle.table.specs.Limits as limits;

use table::settings::Limits;

pub fn permitted(l: Limits) -> bool
    ensures { result ≡ limits.is_permitted l }
{
    (1..=256).contains(&l.written) && l.fixpoints <= 10
}

pub fn desk() -> Limits
    ensures { result ≡ limits.desk }
{
    Limits {
        written: 64,
        fixpoints: 8,
    }
}
