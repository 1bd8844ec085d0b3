// A draft numbered from no words, with numbers, a stack and an index of about the size that it needs: short drafts do not pay for long ones.
#![tactic(auto)]

ghost use Rattle.std.specs.Prelude.{◌/◌, ◌<◌, ◌≤◌};
ghost use Rattle.table.specs.Answers.{OrNone};
ghost use Rattle.table.specs.Numbering.{room};
ghost use Rattle.number_rooms.specs.Rooms.{Asked, Made};

// The table of the root's formula at the front of the result, and its length, if it fits. A room is for drafts of at most `SLOTS` slots, and
// its index has more than two places for each word that a slice of as many can count for.
pub fn number<const SLOTS: usize, const INDEX: usize>(
    draft: &[u64],
    root: usize,
    res: &mut [u32],
) -> Option<usize>
    requires asked { Asked SLOTS draft.now root res.old }
    requires index { (SLOTS ≤ 1048576) × (room SLOTS < INDEX / 2) × (INDEX ≤ 32768) }
    ensures { OrNone (λ n. Made draft.now root res.old res.new n) result }
{
    let mut numbers = [0u16; SLOTS];
    let mut stack = [0u32; SLOTS];
    let mut index = [0u16; INDEX];
    draft_numbering::number(draft, root, &mut numbers, &mut stack, res, &mut index)
}
