// What is made of two truth values at each position by itself. `Not` denies the right one.
#[derive(Clone, Copy)]
pub enum Connective {
    Never,
    Always,
    Left,
    Right,
    And,
    Or,
    Implies,
    Not,
}
