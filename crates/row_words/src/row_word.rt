// One word of a row at a time: n positions, 1 to 64 of them, in the n low bits, and nothing above them.
ghost use Rattle.std.specs.Prelude.{◌≡◌, cond, ℕ, suc, ◌+◌, ◌-◌, ◌*◌, ◌%◌, ◌^◌, ◌≤◌, ◌<◌, ltb, eqb};
ghost use Rattle.logic.specs.Bit as bits;
ghost use Rattle.logic.specs.Truth.{Sequence};
ghost use Rattle.row_words.specs.Row as rows;

// How many words a row of so many positions has.
pub fn row_words(positions: usize) -> usize
    requires { positions ≤ 4096 }
    ensures { result ≡ rows.row_words positions }
{
    positions.div_ceil(64)
}

// How many of the positions stand in word w of their row.
pub fn filled(positions: usize, w: usize) -> usize
    requires { (w * 64 < positions) × (positions ≤ 4096) }
    ensures { result ≡ rows.filled positions w }
{
    (positions - w * 64).min(64)
}

// n ones.
pub fn ones(n: usize) -> u64
    requires { (1 ≤ n) × (n ≤ 64) }
    ensures { result ≡ 2 ^ n - 1 }
{
    u64::MAX >> (64 - n)
}

// Bit k of a word.
pub fn bit(word: u64, k: usize) -> bool
    requires { k < 64 }
    ensures { result ≡ bits.bit word k }
{
    (word >> k) % 2 == 1
}

// A constant at n positions.
pub fn constant(value: bool, n: usize) -> u64
    requires { (1 ≤ n) × (n ≤ 64) }
    ensures { (i : ℕ) → result ≡ rows.pack_bits (λ k. value) i n }
{
    if value { ones(n) } else { 0 }
}

// The next position's value at n positions: the last one takes the first of the word after.
pub fn shift(x: u64, after: u64, n: usize) -> u64
    requires { (1 ≤ n) × (n ≤ 64) }
    ensures { (A : Sequence) (i : ℕ)
        → x ≡ rows.pack_bits A i n
        → result ≡ rows.pack_bits (λ k. cond (ltb (suc k) (i + n)) (A (suc k)) (eqb (after % 2) 1)) i n }
{
    (x >> 1) | ((after % 2) << (n - 1))
}
