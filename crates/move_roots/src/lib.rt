// The slot of what is written of a state: state 0 is the start; any other is given with its word and the bit of its class, and its slot is that of its move.
#![tactic(auto)]

ghost use Rattle.std.specs.Prelude.{◌+◌, ◌*◌, ◌≤◌, ◌<◌, ◌≡◌, length};
ghost use Rattle.drafts.specs.Drafted.{Drafted};
ghost use Rattle.automata_tables.specs.Moves.{as_formula, written_at};
ghost use Rattle.move_roots.specs.Roots.{root_of, Drawn};

// The slot of a word moved by a class.
fn root(word: usize, class: usize) -> usize
    requires { word < 16384 }
    ensures { result ≡ root_of word class }
{
    match class {
        1 => 7 * word + 4,
        2 => 7 * word + 5,
        _ => 7 * word + 6,
    }
}

// The slot of the start, or of the state's move, once its draft is filled.
pub fn fill(
    words: &[u32],
    bytes: &[u8],
    starts: &[u16],
    sample: u32,
    state: usize,
    word: usize,
    class: usize,
    draft: &mut [u64],
) -> usize
    requires drawn { Drawn words.now bytes.now starts.now state word class }
    requires words_in_bounds { (7 * length words.now + 7 ≤ length draft.old) × (length draft.old ≤ 1048576) }
    ensures drafted { Drafted draft.new (as_formula (written_at words.now state sample)) result }
    ensures upper_bound { result < 7 * length words.now + 7 }
{
    if state == 0 {
        start_draft::fill(words, bytes, starts, draft);
        return 3 * words.len() + 2;
    }
    move_draft::fill(words, bytes, starts, sample, class == 5, draft);
    root(word, class)
}
