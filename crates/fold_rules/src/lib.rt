// What a constant operand makes of a word: one of its operands, or nothing. An operand's kind tells whether it is a constant; X has its operand on the right.
#![tactic(auto)]

ghost use Rattle.std.specs.Prelude.{◌≡◌};
ghost use Rattle.table.specs.Node.{shape};
ghost use Rattle.fold_rules.specs.Rules.{left_rule, right_rule, constantly, rule_of, answer};

use Side::{Left, Right};
use table::kinds;

#[derive(Clone, Copy)]
pub enum Side {
    Left,
    Right,
}

// A constant on the left of a word.
pub fn on_left(kind: u32, constant: bool) -> Option<Side>
    ensures { result ≡ answer (left_rule (shape kind) constant) }
{
    match kind {
        kinds::AND => if constant { Some(Right) } else { Some(Left) },
        kinds::OR => if constant { Some(Left) } else { Some(Right) },
        kinds::UNTIL => if constant { None } else { Some(Right) },
        kinds::WEAK => if constant { Some(Left) } else { Some(Right) },
        kinds::RELEASE => if constant { Some(Right) } else { None },
        kinds::STRONG => if constant { Some(Right) } else { Some(Left) },
        _ => None,
    }
}

// A constant on the right.
pub fn on_right(kind: u32, constant: bool) -> Option<Side>
    ensures { result ≡ answer (right_rule (shape kind) constant) }
{
    match kind {
        kinds::AND => if constant { Some(Left) } else { Some(Right) },
        kinds::OR => if constant { Some(Right) } else { Some(Left) },
        kinds::NEXT => Some(Right),
        kinds::UNTIL => Some(Right),
        kinds::WEAK => if constant { Some(Right) } else { None },
        kinds::RELEASE => Some(Right),
        kinds::STRONG => if constant { None } else { Some(Right) },
        _ => None,
    }
}

// A word of a kind over operands of the kinds `left` and `right`.
pub fn of(kind: u32, left: u32, right: u32) -> Option<Side>
    ensures { result ≡ answer (rule_of (shape kind) (shape left) (shape right)) }
{
    by_left(kind, left).or_else(|| by_right(kind, right))
}

fn by_left(kind: u32, left: u32) -> Option<Side>
    ensures { result ≡ answer (constantly (left_rule (shape kind)) (shape left)) }
{
    match left {
        kinds::FALSE => on_left(kind, false),
        kinds::TRUE => on_left(kind, true),
        _ => None,
    }
}

fn by_right(kind: u32, right: u32) -> Option<Side>
    ensures { result ≡ answer (constantly (right_rule (shape kind)) (shape right)) }
{
    match right {
        kinds::FALSE => on_right(kind, false),
        kinds::TRUE => on_right(kind, true),
        _ => None,
    }
}
