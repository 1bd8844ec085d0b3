// The checks of one word by itself: its kind, then its fields; the operands that pass are marked on the way.
#![tactic(auto)]

ghost use Rattle.std.specs.Prelude.{[], ◌≤◌, length};
ghost use Rattle.table.specs.Checks.{word_checks};
ghost use Rattle.field_checks.specs.Field.{Checked};
ghost use Rattle.fields.specs.Marks.{marked_with};

use field_faults::field_fault;
use refusals::Refusal;

// Word number `n`, as if no word stood before it that it could repeat.
pub fn fault(w: u32, n: usize, plain: bool, marks: &mut [bool]) -> Result<(), Refusal>
    requires { n ≤ length marks.old }
    ensures { Checked (word_checks plain [] n w) (marked_with w marks.old) result marks.new }
{
    let kind = word::kind(w);
    if kind == 0 {
        return Err(Refusal::KindZero(n));
    }
    if plain && 12 <= kind {
        return Err(Refusal::NotPlain(n));
    }
    field_fault(
        layouts::of_kind(kind),
        word::left(w),
        word::right(w),
        n,
        marks,
    )
}
