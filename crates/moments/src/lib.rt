// What two recordings are held against each other by: how many moments stand for all, the sample after one, and whether two samples are alike.
#![tactic(auto)]

ghost use Rattle.std.specs.Prelude.{◌≡◌, cond, ℕ, ◌+◌, ◌-◌, ◌^◌, ◌≤◌, ◌<◌, ltb};
ghost use Rattle.agreement.specs.Comparing as comparing;

// The driven bits of a sample.
pub fn driven_bits(driven: usize) -> u64
    requires { driven ≤ 32 }
    ensures { result ≡ 2 ^ driven - 1 }
{
    (1u64 << driven) - 1
}

// Whether two samples have the same bits, of those that are asked for.
pub fn alike(v: u32, w: u32, bits: u64) -> bool
    ensures { (k : ℕ) → bits ≡ 2 ^ k - 1 → result ≡ comparing.alike k v w }
{
    u64::from(v ^ w) & bits == 0
}

// The sample after one: the next, or after the last the one at the loop start.
pub fn following(at: usize, samples: usize, start: usize) -> usize
    requires { at < samples }
    ensures { result ≡ cond (ltb (at + 1) samples) (at + 1) start }
{
    let next = at + 1;
    if next < samples { next } else { start }
}

// How many moments stand for all.
pub fn window(samples: usize, start: usize, others: usize, other_start: usize) -> usize
    requires { (samples ≤ 4096) × (others ≤ 4096) × (start < samples) × (other_start < others) }
    ensures { result ≡ comparing.window samples start others other_start }
{
    let loops = (samples - start) + (others - other_start);
    start.max(other_start) + loops
}
