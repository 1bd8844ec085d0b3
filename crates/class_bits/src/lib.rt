// What the bits of a word's class byte tell: the level of its classes, its class of the second level, and where the state of a Pi class stands.
#![tactic(auto)]

ghost use Rattle.std.specs.Prelude.{◌+◌, ◌<◌, ◌≡◌, cond};
ghost use Rattle.logic.specs.Bit.{bit};
ghost use Rattle.automata_laws.specs.StateClass.{class_bit};
ghost use Rattle.class_bits.specs.Levels.{second_class, level};

pub fn bit_of(byte: u8, k: u32) -> bool
    requires { k < 8 }
    ensures { result ≡ bit byte k }
{
    (byte >> k) & 1 == 1
}

// The state of a Pi class stands after that of Sigma of its level, where there is one.
pub fn after(start: usize, sigma: bool) -> usize
    requires { start < 65536 }
    ensures { (result ≡ start + cond sigma 2 1) × (result < 1048576) }
{
    if sigma {
        return start + 2;
    }
    start + 1
}

// Whether the word is in Pi-2, or in Sigma-2.
pub fn in_second(byte: u8, pi: bool) -> bool
    ensures { result ≡ bit byte (class_bit (second_class pi)) }
{
    if pi {
        return bit_of(byte, 5);
    }
    bit_of(byte, 4)
}

// The bit of Sigma-1 where the word is in a class of the first level, else that of Sigma-2.
pub fn level_of(byte: u8) -> u32
    ensures { (result ≡ level byte) × (result < 5) }
{
    if bit_of(byte, 1) {
        return 1;
    }
    if bit_of(byte, 2) {
        return 1;
    }
    4
}
