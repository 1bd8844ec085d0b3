// A draft of the size that the table can need, filled and numbered: short tables pay for no more.
#![tactic(auto)]

ghost use Rattle.std.specs.Prelude.{◌/◌, ◌<◌, ◌≤◌};
ghost use Rattle.table.specs.Answers.{OrNone};
ghost use Rattle.table.specs.Numbering.{room};
ghost use Rattle.placing.specs.Written.{Written};
ghost use Rattle.table.specs.Steps.{after_table};
ghost use Rattle.after_rooms.specs.Rooms.{Asked};

// The table at the front of the result, and its length, if it fits: in a room for drafts of at most `SLOTS` slots, whose index has more than
// two places for each word that a slice of as many can count for.
// A room is never inlined, so that the arrays of the larger ones stay out of the frame of a short call.
#[inline(never)]
pub fn write_in<const SLOTS: usize, const INDEX: usize>(
    table: &[u32],
    sample: u32,
    res: &mut [u32],
) -> Option<usize>
    requires asked { Asked SLOTS table.now res.old }
    requires index { (SLOTS ≤ 1048576) × (room SLOTS < INDEX / 2) × (INDEX ≤ 32768) }
    ensures { OrNone (λ n. Written (after_table sample table.now) res.old res.new n) result }
{
    let mut draft = [0u64; SLOTS];
    after_draft::fill(table, sample, &mut draft);
    number_rooms::number::<SLOTS, INDEX>(&draft, 3 * table.len() + 2, res)
}
