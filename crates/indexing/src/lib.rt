// A word added to a hash index.
#![tactic(auto)]

ghost use Rattle.std.specs.Prelude.{List, [], ◌∷◌, ◌++◌, ℕ, ◌+◌, ◌≤◌, ◌<◌, length};
ghost use Rattle.lookup.specs.Index.{count_of, half_of, Indexed};

use lookup::bucket;

// One word more, at the front of its chain.
pub fn add(index: &mut [u16], w: u32)
    requires { (count_of index.old + 1 < half_of index.old) × (length index.old ≤ 32768) }
    ensures { (t : List ℕ) → Indexed t index.old → Indexed (t ++ (w ∷ [])) index.new }
{
    let half = index.len() / 2;
    let head = half + bucket(half, w);
    let number = index[0] + 1;
    let n = usize::from(number);
    index[n] = index[head];
    index[head] = number;
    index[0] = number;
}
