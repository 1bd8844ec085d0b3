// One word of a row from those of its operands, by a connective or a backward sweep: n positions, 1 to 64 of them, in the n low bits, and nothing above them.
#![tactic(auto)]

ghost use Rattle.std.specs.Prelude.{◌≡◌, false, ℕ, ◌+◌, ◌-◌, ◌≤◌};
ghost use Rattle.logic.specs.Truth.{Sequence, sweep, across};
ghost use Rattle.row_words.specs.Row as rows;
ghost use Rattle.row_words.specs.Writing.{joins};

use row_words::connective::Connective;
use row_words::row_word::ones;

// A connective at n positions at once.
pub fn join(op: Connective, x: u64, y: u64, n: usize) -> u64
    requires { (1 ≤ n) × (n ≤ 64) }
    ensures { (A B : Sequence) (i : ℕ)
        → x ≡ rows.pack_bits A i n
        → y ≡ rows.pack_bits B i n
        → result ≡ rows.pack_bits (across (joins op) A B) i n }
{
    match op {
        Connective::Never => 0,
        Connective::Always => ones(n),
        Connective::Left => x,
        Connective::Right => y,
        Connective::And => x & y,
        Connective::Or => x | y,
        Connective::Implies => (ones(n) ^ x) | y,
        Connective::Not => ones(n) ^ y,
    }
}

// A backward sweep with nothing carried in, in six doublings: once the width is d, bit k of g says whether the sweep over the d
// positions from k on holds, and bit k of p whether p holds throughout them.
pub fn closed(g: u64, p: u64) -> u64
    ensures { (G P : Sequence) (i n : ℕ) → n ≤ 64
        → g ≡ rows.pack_bits G i n
        → p ≡ rows.pack_bits P i n
        → result ≡ rows.pack_bits (λ k. sweep G P false k (i + n - k)) i n }
{
    let g2 = g | (p & (g >> 1));
    let p2 = p & (p >> 1);
    let g4 = g2 | (p2 & (g2 >> 2));
    let p4 = p2 & (p2 >> 2);
    let g8 = g4 | (p4 & (g4 >> 4));
    let p8 = p4 & (p4 >> 4);
    let g16 = g8 | (p8 & (g8 >> 8));
    let p16 = p8 & (p8 >> 8);
    let g32 = g16 | (p16 & (g16 >> 16));
    let p32 = p16 & (p16 >> 16);
    g32 | (p32 & (g32 >> 32))
}
