// What the two fields of a word of a kind are for.
#![tactic(auto)]

ghost use Rattle.std.specs.Prelude.{◌≡◌, ◌<◌};
ghost use Rattle.table.specs.Node.{shape};
ghost use Rattle.layouts.specs.Layout.{layout_of};

#[derive(Clone, Copy)]
pub enum Layout {
    Constant,
    Letter,
    Unary,
    Binary,
}

pub fn of_kind(kind: u32) -> Layout
    requires { (0 < kind) × (kind < 16) }
    ensures { result ≡ layout_of (shape kind) }
{
    match kind {
        1..=2 => Layout::Constant,
        3..=4 => Layout::Letter,
        7 | 12..=14 => Layout::Unary,
        _ => Layout::Binary,
    }
}
