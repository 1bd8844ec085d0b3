// How long a written table may be, and how many until-like words a plain one may have.
#[derive(Clone, Copy)]
pub struct Limits {
    pub written: usize,
    pub fixpoints: usize,
}
