// The test for a goal that one step leaves as it is: such rows need no sweep.
#![tactic(auto)]

ghost use Rattle.std.specs.Prelude.{◌≡◌, true, ◌&&◌, ◌||◌, ◌↔◌, length};
ghost use Rattle.logic.specs.Truth.{Sequence};
ghost use Rattle.row_words.specs.Row as rows;
ghost use Rattle.row_words.specs.Writing.{RowFor};

use row_words::row_word::{filled, shift};

// Whether one step of a sweep, from each position's next one, adds nothing: then the goal is all that the sweep comes to (`settled-row`).
pub fn settled(g: &[u64], p: &[u64], positions: usize, end: bool) -> bool
    requires { RowFor positions g.now × (length p.now ≡ length g.now) }
    ensures { (G P : Sequence)
        → g.now ≡ rows.row positions G
        → p.now ≡ rows.row positions P
        → (result ≡ true) ↔ (rows.row positions (λ i. G i || (P i && rows.next positions G end i)) ≡ rows.row positions G) }
{
    let last = g.len() - 1;
    let mut added: u64 = 0;
    // By index: each word of both rows and the word after are read at once.
    for w in 0..last {
        let x = g[w];
        added |= (x | (p[w] & shift(x, g[w + 1], 64))) ^ x;
    }
    let x = g[last];
    let next = shift(x, u64::from(end), filled(positions, last));
    added |= (x | (p[last] & next)) ^ x;
    added == 0
}
