// A draft of the size that the table can need, filled and numbered: short tables pay for no more.
#![tactic(auto)]

ghost use Rattle.std.specs.Prelude.{◌/◌, ◌<◌, ◌≤◌};
ghost use Rattle.table.specs.Answers.{OrNone};
ghost use Rattle.table.specs.Numbering.{room};
ghost use Rattle.move_roots.specs.Roots.{Drawn};
ghost use Rattle.move_rooms.specs.Rooms.{Asked, Moved};

// A draft of `DRAFT` slots, numbered in a room of `SLOTS` slots and an index of `INDEX` numbers.
pub fn of<const DRAFT: usize, const SLOTS: usize, const INDEX: usize>(
    words: &[u32],
    bytes: &[u8],
    starts: &[u16],
    sample: u32,
    state: usize,
    word: usize,
    class: usize,
    res: &mut [u32],
) -> Option<usize>
    requires drawn { Drawn words.now bytes.now starts.now state word class }
    requires asked { Asked DRAFT words.now res.old }
    requires room { (DRAFT ≤ SLOTS) × (SLOTS ≤ 1048576) × (room SLOTS < INDEX / 2) × (INDEX ≤ 32768) }
    ensures { OrNone (λ n. Moved words.now state sample res.old res.new n) result }
{
    let mut draft = [0u64; DRAFT];
    let root = move_roots::fill(words, bytes, starts, sample, state, word, class, &mut draft);
    number_rooms::number::<SLOTS, INDEX>(&draft, root, res)
}
