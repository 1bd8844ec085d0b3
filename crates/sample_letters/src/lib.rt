// What a letter becomes by a sample.
#![tactic(auto)]

ghost use Rattle.std.specs.Prelude.{◌≤◌, ◌≡◌};
ghost use Rattle.sample_letters.specs.Constant.{constant_at};

// The constant that a letter, or its negation, is in a sample.
pub fn reading(sample: u32, kind: u32, letter: usize) -> u32
    requires { (1 ≤ letter) × (letter ≤ 32) }
    ensures { result ≡ constant_at sample kind letter }
{
    let on = (sample >> (letter - 1)) % 2;
    if kind == 3 {
        return 1 + on;
    }
    2 - on
}
