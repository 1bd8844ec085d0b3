// A plain form drafted and numbered, in a draft of the size that the table can need: short tables pay for no more.
#![tactic(auto)]

ghost use Rattle.std.specs.Prelude.{◌/◌, ◌<◌, ◌≤◌, true};
ghost use Rattle.logic.specs.NegationNormalForm.{plain};
ghost use Rattle.table.specs.Answers.{OrNone};
ghost use Rattle.table.specs.Numbering.{room};
ghost use Rattle.table.specs.Table.{rule};
ghost use Rattle.table.specs.Steps.{plain_table};
ghost use Rattle.drafts.specs.Drafted.{Drafted};
ghost use Rattle.placing.specs.Written.{Written};
ghost use Rattle.plain_rooms.specs.Rooms.{Empty, Asked};

use slots::slot;

// The draft of the whole rule, in slots that are all empty: the slot of its plain form.
fn draft_rule(table: &[u32], draft: &mut [u64]) -> usize
    requires { Empty table.now draft.old }
    ensures { Drafted draft.new (plain true (rule table.now)) result }
{
    slot::store(&mut *draft, plain_draft::FALSE, 1, 0, 0);
    slot::store(&mut *draft, plain_draft::TRUE, 2, 0, 0);
    plain_draft::wanted(table, draft, table.len())
}

// The plain form's table at the front of the result, and its length, if it fits: by a draft of `DRAFT` slots, numbered in a room for drafts of
// at most `SLOTS`, whose index has more than two places for each word that a slice of as many can count for.
fn write_in<const DRAFT: usize, const SLOTS: usize, const INDEX: usize>(
    table: &[u32],
    res: &mut [u32],
) -> Option<usize>
    requires asked { Asked DRAFT table.now res.old }
    requires slots { DRAFT ≤ SLOTS }
    requires index { (SLOTS ≤ 1048576) × (room SLOTS < INDEX / 2) × (INDEX ≤ 32768) }
    ensures { OrNone (λ n. Written (plain_table table.now) res.old res.new n) result }
{
    let mut draft = [0u64; DRAFT];
    let root = draft_rule(table, &mut draft);
    number_rooms::number::<SLOTS, INDEX>(&draft, root, res)
}

// In the smaller room where the table is short.
pub fn write(table: &[u32], res: &mut [u32]) -> Option<usize>
    requires { Asked 514 table.now res.old }
    ensures { OrNone (λ n. Written (plain_table table.now) res.old res.new n) result }
{
    if table.len() <= 64 {
        return write_in::<130, 195, 392>(table, res);
    }
    write_in::<514, 514, 1030>(table, res)
}
