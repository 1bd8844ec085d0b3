// The first moment at which two recordings of one show differ.
#![tactic(auto)]

ghost use Rattle.std.specs.Prelude.{◌≡◌, ◌≤◌, ◌<◌, length, Ok};
ghost use Rattle.logic.specs.Lasso.{lasso_of};
ghost use Rattle.agreement.specs.Comparing as comparing;

use moments::{alike, driven_bits, following, window};

// The first moment at which two recordings that drive as many letters differ. Never inlined: in a caller that holds more numbers the loop keeps one of them in
// memory, and where the code then happens to lie it takes up to twice as long.
#[inline(never)]
pub fn first_difference(
    samples: &[u32],
    start: usize,
    others: &[u32],
    other_start: usize,
    driven: usize,
) -> Option<usize>
    requires { (length samples.now ≤ 4096) × (length others.now ≤ 4096)
        × (start < length samples.now) × (other_start < length others.now) × (driven ≤ 32) }
    ensures { Ok result ≡ comparing.compared (lasso_of samples.now start driven) (lasso_of others.now other_start driven) }
{
    let bits = driven_bits(driven);
    let moments = window(samples.len(), start, others.len(), other_start);
    let mut at = 0;
    let mut other = 0;
    for i in 0..moments {
        if !alike(samples[at], others[other], bits) {
            return Some(i);
        }
        at = following(at, samples.len(), start);
        other = following(other, others.len(), other_start);
    }
    None
}
