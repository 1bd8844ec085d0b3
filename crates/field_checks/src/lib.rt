// The checks of one field of a word, by what it is for; an operand that passes is marked on the way.
#![tactic(auto)]

ghost use Rattle.std.specs.Prelude.{◌≡◌, true, ◌≤◌, length, set};
ghost use Rattle.refusals.specs.Refusals.{first};
ghost use Rattle.field_checks.specs.Field.{blank_checks, operand_checks, letter_checks, Checked};

use refusals::Refusal;

// A field that must be 0.
pub fn blank_fault(field: usize, n: usize) -> Result<(), Refusal>
    ensures { result ≡ first (blank_checks field n) }
{
    if field != 0 {
        return Err(Refusal::FieldNotZero(n));
    }
    Ok(())
}

pub fn operand_fault(operand: usize, n: usize, marks: &mut [bool]) -> Result<(), Refusal>
    requires { n ≤ length marks.old }
    ensures { Checked (operand_checks operand n) (set marks.old operand true) result marks.new }
{
    if operand == 0 {
        return Err(Refusal::OperandZero(n));
    }
    if n <= operand {
        return Err(Refusal::OperandNotEarlier(n));
    }
    marks[operand] = true;
    Ok(())
}

pub fn letter_fault(letter: usize, n: usize) -> Result<(), Refusal>
    ensures { result ≡ first (letter_checks letter n) }
{
    if letter == 0 {
        return Err(Refusal::LetterOutOfRange(n));
    }
    if 32 < letter {
        return Err(Refusal::LetterOutOfRange(n));
    }
    Ok(())
}
