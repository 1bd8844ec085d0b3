// What a plain kind stands for, as far as class bytes go.
#![tactic(auto)]

ghost use Rattle.std.specs.Prelude.{◌<◌};
ghost use Rattle.table.specs.Node.{shape};
ghost use Rattle.plain_kinds.specs.PlainKind.{Stands};

#[derive(Clone, Copy)]
pub enum Operator {
    // and, or
    Boolean,
    // U, M
    Least,
    // W, R
    Greatest,
}

#[derive(Clone, Copy)]
pub enum PlainKind {
    Atomic,
    Next,
    Binary(Operator),
}

pub fn of(kind: u32) -> PlainKind
    requires { (0 < kind) × (kind < 12) }
    ensures { Stands (shape kind) result }
{
    match kind {
        1..=4 => PlainKind::Atomic,
        5..=6 => PlainKind::Binary(Operator::Boolean),
        7 => PlainKind::Next,
        9..=10 => PlainKind::Binary(Operator::Greatest),
        _ => PlainKind::Binary(Operator::Least),
    }
}
