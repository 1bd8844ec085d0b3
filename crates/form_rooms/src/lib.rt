// Drafts, numbers, a stack and an index of the size that a form can need: short rules pay for no more.
// A room is never inlined, so that the arrays of the larger ones stay out of the frame of a short call.
#![tactic(auto)]

ghost use Rattle.std.specs.Prelude.{◌-◌, ◌/◌, ◌<◌, ◌≤◌};
ghost use Rattle.table.specs.Answers.{OrNone};
ghost use Rattle.table.specs.Steps.{normal_table};
ghost use Rattle.placing.specs.Written.{Written};
ghost use Rattle.form_rooms.specs.Rooms.{most_slots, Positioned, Sized};

// A form whose drafts have at most `SLOTS` slots, of fewer words than half the places of the index.
#[inline(never)]
pub fn room<const SLOTS: usize, const INDEX: usize>(
    table: &[u32],
    positions: &[u8],
    bits: u32,
    out: &mut [u32],
) -> Option<usize>
    requires asked { Positioned table.now positions.now bits × Sized table.now SLOTS out.old (INDEX / 2 - 1) }
    requires index { (SLOTS ≤ most_slots) × (1 < INDEX) × (INDEX ≤ 32768) }
    ensures { OrNone (λ n. Written (normal_table table.now) out.old out.new n) result }
{
    let mut draft = [0u64; SLOTS];
    let mut folded = [0u64; SLOTS];
    let mut numbers = [0u16; SLOTS];
    let mut stack = [0u32; SLOTS];
    let mut index = [0u16; INDEX];
    form_table::form(
        table,
        positions,
        bits,
        &mut draft,
        &mut folded,
        &mut numbers,
        &mut stack,
        out,
        &mut index,
    )
}
