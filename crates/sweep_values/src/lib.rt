// What a backward sweep over rows comes to at a position.
#![tactic(auto)]

ghost use Rattle.std.specs.Prelude.{◌≡◌, ◌-◌, ◌≤◌, length};
ghost use Rattle.logic.specs.Truth.{Sequence, sweep};
ghost use Rattle.row_words.specs.Row as rows;
ghost use Rattle.row_words.specs.Writing.{RowFor};

use row_words::row_word::{filled, ones};
use word_carries::first;

// What a sweep from a position on comes to: word by word upward, as long as p holds to the word's end.
pub fn value_at(g: &[u64], p: &[u64], positions: usize, from: usize, end: bool) -> bool
    requires row_for { RowFor positions g.now }
    requires p_len { (length p.now ≡ length g.now) × (from ≤ positions) }
    ensures { (G P : Sequence)
        → g.now ≡ rows.row positions G
        → p.now ≡ rows.row positions P
        → result ≡ sweep G P end from (positions - from) }
{
    // A `while`: the first word may begin in its middle, and `from` may stand at the rows' end.
    let mut i = from;
    while i < positions {
        let w = i / 64;
        let k = i % 64;
        let n = filled(positions, w) - k;
        let kept = p[w] >> k;
        if first(g[w] >> k, kept, false, n) {
            return true;
        }
        if kept != ones(n) {
            return false;
        }
        i = w * 64 + 64;
    }
    end
}
