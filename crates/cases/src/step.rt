// The steps that a case can name.
#[derive(Clone, Copy)]
pub enum Step {
    Check,
    Classify,
    Plain,
    Normal,
    Form,
    Judge,
    Row,
    Text,
    Dialect,
    Compare,
    After,
    States,
    Moves,
}

// By its number in the head of a case; every other number is a move too.
impl From<u32> for Step {
    fn from(number: u32) -> Step {
        match number {
            1 => Step::Check,
            2 => Step::Classify,
            3 => Step::Plain,
            4 => Step::Normal,
            5 => Step::Form,
            6 => Step::Judge,
            7 => Step::Row,
            8 => Step::Text,
            9 => Step::Dialect,
            10 => Step::Compare,
            11 => Step::After,
            12 => Step::States,
            _ => Step::Moves,
        }
    }
}
