// The kind that a plain form puts for a written kind.
ghost use Rattle.std.specs.Prelude.{◌≡◌, ◌<◌, true, false};
ghost use Rattle.source.specs.Kinds.{signed_kind};

// By kind, from 0 on: F a is true U a, G a is false R a, and implies is an or; the others stay.
const PLAIN: [u32; 16] = [0, 1, 2, 3, 4, 5, 6, 7, 8, 9, 10, 11, 12, 8, 10, 6];

// The duals of these: false with true, a letter with its negation, and with or, U with R and W with M; X stays.
const DUALS: [u32; 16] = [0, 2, 1, 4, 3, 6, 5, 7, 10, 11, 8, 9, 12, 10, 8, 5];

pub fn plain(kind: u32) -> u32
    requires { kind < 16 }
    ensures { (result ≡ signed_kind true kind) × (result < 16) }
{
    PLAIN[kind as usize]
}

pub fn dual(kind: u32) -> u32
    requires { kind < 16 }
    ensures { (result ≡ signed_kind false kind) × (result < 16) }
{
    DUALS[kind as usize]
}
