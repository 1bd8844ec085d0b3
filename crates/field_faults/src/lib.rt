// The checks of a word's two fields by their layout; the operands that pass are marked on the way.
#![tactic(auto)]

ghost use Rattle.std.specs.Prelude.{◌≤◌, length};
ghost use Rattle.field_checks.specs.Field.{Checked};
ghost use Rattle.field_faults.specs.Layout.{field_checks};
ghost use Rattle.field_faults.specs.Marks.{marked_by};

use field_checks::{blank_fault, letter_fault, operand_fault};
use layouts::Layout;
use refusals::Refusal;

pub fn field_fault(
    layout: Layout,
    left: usize,
    right: usize,
    n: usize,
    marks: &mut [bool],
) -> Result<(), Refusal>
    requires { n ≤ length marks.old }
    ensures { Checked
        (field_checks layout left right n)
        (marked_by layout left right marks.old)
        result
        marks.new }
{
    match layout {
        Layout::Constant => {
            blank_fault(left, n)?;
            blank_fault(right, n)
        }
        Layout::Letter => {
            blank_fault(left, n)?;
            letter_fault(right, n)
        }
        Layout::Unary => {
            blank_fault(left, n)?;
            operand_fault(right, n, marks)
        }
        Layout::Binary => {
            operand_fault(left, n, marks)?;
            operand_fault(right, n, marks)
        }
    }
}
