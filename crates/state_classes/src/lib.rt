// The classes of a word's states, by its kind and its class byte.
#![tactic(auto)]

ghost use Rattle.std.specs.Prelude.{◌≡◌, cond, ◌<◌, length, get_or};
ghost use Rattle.logic.specs.Bit.{bit};
ghost use Rattle.state_classes.specs.Classes.{is_proper_kind, level_bit, smallest_bits, class_bits};

use table::kinds;

// Whether the kind is of a proper word: neither constant, and, nor or.
fn is_proper(kind: u32) -> bool
    ensures { result ≡ is_proper_kind kind }
{
    match kind {
        kinds::LETTER..=kinds::NOT_LETTER => true,
        kinds::NEXT..=kinds::STRONG => true,
        _ => false,
    }
}

// Bit k of the byte, 1 or 0.
fn digit(byte: u8, k: usize) -> usize
    requires { k < 8 }
    ensures { result ≡ cond (bit byte k) 1 0 }
{
    ((byte >> k) & 1) as usize
}

// The bit of Sigma of the smallest level with a class of the byte.
fn level(byte: u8) -> usize
    ensures { result ≡ level_bit byte }
{
    if digit(byte, 1) + digit(byte, 2) == 0 {
        return 4;
    }
    1
}

// How many states a word has.
pub fn count(kind: u32, byte: u8) -> usize
    ensures { result ≡ length (class_bits kind byte) }
{
    if !is_proper(kind) {
        return 0;
    }
    let sigma = level(byte);
    digit(byte, sigma) + digit(byte, sigma + 1)
}

// The bit of a word's class number k, from 0 on, in rising order.
pub fn class_at(byte: u8, k: usize) -> usize
    requires { k < length (smallest_bits byte) }
    ensures { result ≡ get_or (smallest_bits byte) k 0 }
{
    let sigma = level(byte);
    sigma + k + 1 - digit(byte, sigma)
}
