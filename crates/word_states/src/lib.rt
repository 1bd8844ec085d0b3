// Which states a word has, from its class byte, and their numbers, from the number of the states before it.
#![tactic(auto)]

ghost use Rattle.std.specs.Prelude.{◌+◌, ◌<◌, ◌≡◌};
ghost use Rattle.state_classes.specs.Kept.{offset};
ghost use Rattle.class_bits.specs.Levels.{second_class};
ghost use Rattle.word_states.specs.States.{Small, Moving, Starting};

use class_bits::{after, bit_of, in_second, level_of};

// The numbers of the states of a Sigma class, of the Pi class of its level, and of a further class, where the word has them.
#[derive(Clone, Copy)]
pub struct Held {
    pub sigma: Option<usize>,
    pub pi: Option<usize>,
    pub further: Option<usize>,
}

fn third_state(byte: u8, start: usize, pi: bool) -> usize
    requires { start < 65536 }
    ensures { (result ≡ start + offset (second_class pi) byte) × (result < 1048576) }
{
    if pi {
        return after(start, bit_of(byte, 4));
    }
    start + 1
}

// Sigma-1, Pi-1, and Pi-2 or Sigma-2.
pub fn moving(byte: u8, start: usize, pi: bool) -> Held
    requires { start < 65536 }
    ensures { Moving byte start pi result × Small result }
{
    let sigma = bit_of(byte, 1);
    Held {
        sigma: sigma.then_some(start + 1),
        pi: bit_of(byte, 2).then_some(after(start, sigma)),
        further: in_second(byte, pi).then_some(third_state(byte, start, pi)),
    }
}

// The two classes of its level.
pub fn starting(byte: u8, start: usize) -> Held
    requires { start < 65536 }
    ensures { Starting byte start result × Small result }
{
    let low = level_of(byte);
    let sigma = bit_of(byte, low);
    Held {
        sigma: sigma.then_some(start + 1),
        pi: bit_of(byte, low + 1).then_some(after(start, sigma)),
        further: None,
    }
}
