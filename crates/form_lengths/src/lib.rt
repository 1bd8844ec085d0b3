// How many words of a slice a form can need.
#![tactic(auto)]

ghost use Rattle.std.specs.Prelude.{◌<◌, min, ◌≡◌};
ghost use Rattle.form_lengths.specs.Lengths.{most_words};

// As many words as the form of n words, of which so many are until-like, can have, but no more than there is room for.
pub fn words(n: usize, bits: u32, room: usize) -> usize
    requires { (n < 16384) × (bits < 32) }
    ensures { result ≡ min (most_words n bits) room }
{
    let k = bits as usize;
    let most = (1 << k) * (5 * n + 3 * k + 1) + 2;
    most.min(room)
}
