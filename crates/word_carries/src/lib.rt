// What a backward sweep carries from one word of a row to the word below: handed on, and taken in. A word has n positions, 1 to 64 of them, in the n low bits, and nothing above them.
#![tactic(auto)]

ghost use Rattle.std.specs.Prelude.{◌≡◌, ℕ, ◌+◌, ◌≤◌};
ghost use Rattle.logic.specs.Truth.{Sequence, sweep};
ghost use Rattle.row_words.specs.Row as rows;
ghost use Rattle.word_carries.specs.Carried.{carried_in};

use row_words::row_word::ones;

// What a sweep of n positions comes to at the first of them. The lowest bits of p, up to the first one that fails, change when 1 is added;
// where p fails nowhere, the carry comes through.
pub fn first(g: u64, p: u64, carry: bool, n: usize) -> bool
    requires { (1 ≤ n) × (n ≤ 64) }
    ensures { (G P : Sequence) (i : ℕ)
        → g ≡ rows.pack_bits G i n
        → p ≡ rows.pack_bits P i n
        → result ≡ sweep G P carry i n }
{
    let reached = g & (p ^ p.wrapping_add(1)) != 0;
    let kept = p == ones(n);
    reached | (kept & carry)
}

// The goal of a backward sweep of n positions with the carry taken in: at the last of them it is as good as the goal, if p holds there.
pub fn carried(g: u64, p: u64, carry: bool, n: usize) -> u64
    requires { (1 ≤ n) × (n ≤ 64) }
    ensures { (G P : Sequence) (i : ℕ)
        → g ≡ rows.pack_bits G i n
        → p ≡ rows.pack_bits P i n
        → result ≡ rows.pack_bits (carried_in G P carry (i + n)) i n }
{
    g | (p & (u64::from(carry) << (n - 1)))
}
