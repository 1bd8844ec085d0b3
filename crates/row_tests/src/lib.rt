// The test for the goal or the keep at every position: such rows need no sweep.
#![tactic(auto)]

ghost use Rattle.std.specs.Prelude.{◌≡◌, true, ◌||◌, ◌↔◌, length};
ghost use Rattle.logic.specs.Truth.{Sequence};
ghost use Rattle.row_words.specs.Row as rows;
ghost use Rattle.row_words.specs.Writing.{RowFor};

use row_words::row_word::{filled, ones};

// Whether the goal or the keep holds at every position: then a sweep with the carry holds at every one (`full-row`).
pub fn everywhere(g: &[u64], p: &[u64], positions: usize) -> bool
    requires { RowFor positions g.now × (length p.now ≡ length g.now) }
    ensures { (G P : Sequence)
        → g.now ≡ rows.row positions G
        → p.now ≡ rows.row positions P
        → (result ≡ true) ↔ (rows.row positions (λ i. G i || P i) ≡ rows.row positions (λ i. true)) }
{
    let last = g.len() - 1;
    let mut missing: u64 = 0;
    // By index, and with no early end: the words of both rows are read at once, several by one instruction.
    for w in 0..last {
        missing |= (g[w] | p[w]) ^ u64::MAX;
    }
    missing |= (g[last] | p[last]) ^ ones(filled(positions, last));
    missing == 0
}
