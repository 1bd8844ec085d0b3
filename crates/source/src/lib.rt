// A word of a table, taken apart, and the kind that a plain form puts for its kind.
#![tactic(auto)]

ghost use Rattle.source.specs.Source.{Inside, WordAt};

pub mod kinds;

#[derive(Clone, Copy)]
pub struct Word {
    pub kind: u32,
    pub left: usize,
    pub right: usize,
}

pub fn read(table: &[u32], j: usize) -> Word
    requires { Inside table.now j }
    ensures { WordAt table.now j result.kind result.left result.right }
{
    let w = table[j - 1];
    Word {
        kind: word::kind(w),
        left: word::left(w),
        right: word::right(w),
    }
}
