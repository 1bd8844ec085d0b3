// What is written to the row of a word, by its kind.
ghost use Rattle.std.specs.Prelude.{◌≡◌};
ghost use Rattle.table.specs.Node.{shape};
ghost use Rattle.operators.specs.Looped.{meaning, does};

use row_words::connective::Connective;

// A constant; a letter or its denial; a connective of the operands; the next position's value; or the least or greatest fixpoint of:
// the goal now, or the keep now and the same at the next position.
#[derive(Clone, Copy)]
pub enum Operator {
    Constant(bool),
    Letter(bool),
    Each(Connective),
    Next,
    Fixpoint {
        goal: Connective,
        keep: Connective,
        greatest: bool,
    },
}

// Each operator by its kind. F a is true U a, and G a is false R a.
pub fn of_kind(kind: u32) -> Operator
    ensures { does result ≡ meaning (shape kind) }
{
    match kind {
        2 => Operator::Constant(true),
        3 => Operator::Letter(true),
        4 => Operator::Letter(false),
        5 => Operator::Each(Connective::And),
        6 => Operator::Each(Connective::Or),
        7 => Operator::Next,
        8 => fixpoint(Connective::Right, Connective::Left, false),
        9 => fixpoint(Connective::Right, Connective::Left, true),
        10 => fixpoint(Connective::And, Connective::Right, true),
        11 => fixpoint(Connective::And, Connective::Right, false),
        12 => Operator::Each(Connective::Not),
        13 => fixpoint(Connective::Right, Connective::Always, false),
        14 => fixpoint(Connective::Never, Connective::Right, true),
        15 => Operator::Each(Connective::Implies),
        _ => Operator::Constant(false),
    }
}

fn fixpoint(goal: Connective, keep: Connective, greatest: bool) -> Operator
    ensures { result ≡ Operator.Fixpoint goal keep greatest }
{
    Operator::Fixpoint {
        goal,
        keep,
        greatest,
    }
}
