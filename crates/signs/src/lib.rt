// What a byte is where no symbol is being spelled. A symbol is known by its first byte; only a letter goes on with a number.
#![tactic(auto)]

ghost use Rattle.std.specs.Prelude.{◌≡◌};
ghost use Rattle.grammar.specs.Reader.{mark_of};
ghost use Rattle.signs.specs.Signed.{signed};

// A constant and an operator come with their kind and the bytes that are left of them, the next one lowest; a prefix with its kind.
#[derive(Clone, Copy)]
pub enum Sign {
    Blank,
    Constant(u32, u32),
    Letter,
    Prefix(u32),
    Operator(u32, u32),
    Open,
    Close,
    Unknown,
}

pub fn sign_of(b: u8) -> Sign
    ensures { result ≡ signed (mark_of b) }
{
    match b {
        b' ' => Sign::Blank,
        b't' => Sign::Constant(2, 0x657572),
        b'f' => Sign::Constant(1, 0x65736c61),
        b'p' => Sign::Letter,
        b'!' => Sign::Prefix(12),
        b'X' => Sign::Prefix(7),
        b'F' => Sign::Prefix(13),
        b'G' => Sign::Prefix(14),
        b'&' => Sign::Operator(5, 0),
        b'|' => Sign::Operator(6, 0),
        b'-' => Sign::Operator(15, 0x3e),
        b'U' => Sign::Operator(8, 0),
        b'W' => Sign::Operator(9, 0),
        b'R' => Sign::Operator(10, 0),
        b'M' => Sign::Operator(11, 0),
        b'(' => Sign::Open,
        b')' => Sign::Close,
        _ => Sign::Unknown,
    }
}
