// The class byte of a word from its operands' class bytes. Bits, lowest first: class zero, Sigma-1, Pi-1, Delta-1, Sigma-2, Pi-2, Delta-2.
ghost use Rattle.std.specs.Prelude.{◌≡◌, ◌<◌};
ghost use Rattle.logic.specs.ClassStep.{with_delta, next_byte, least_byte, greatest_byte};
ghost use Rattle.plain_kinds.specs.PlainKind.{operator_byte};

use plain_kinds::Operator;

// Delta-1 from Sigma-1 or Pi-1, and Delta-2 from Sigma-2 or Pi-2.
fn with_delta(k: u8) -> u8
    requires { k < 64 }
    ensures { result ≡ with_delta k }
{
    k | ((k << 2 | k << 1) & 0x48)
}

pub fn next(a: u8) -> u8
    ensures { result ≡ next_byte a }
{
    with_delta(a & 0x36)
}

// U and M.
pub fn least(a: u8, b: u8) -> u8
    ensures { result ≡ least_byte a b }
{
    let m = a & b;
    with_delta(m & 0x12 | (m & 0x02) << 4)
}

// W and R.
pub fn greatest(a: u8, b: u8) -> u8
    ensures { result ≡ greatest_byte a b }
{
    let m = a & b;
    with_delta(m & 0x24 | (m & 0x04) << 2)
}

pub fn binary(o: Operator, a: u8, b: u8) -> u8
    ensures { result ≡ operator_byte o a b }
{
    match o {
        Operator::Boolean => a & b,
        Operator::Least => least(a, b),
        Operator::Greatest => greatest(a, b),
    }
}
