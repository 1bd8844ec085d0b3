// The words of a table and their uses, with an index and marks of the size that the table can need: short tables pay for no more.
#![tactic(auto)]

ghost use Rattle.std.specs.Prelude.{◌≡◌, [], ◌/◌, ◌<◌, ◌≤◌, length};
ghost use Rattle.faults.specs.Contents.{contents};
ghost use Rattle.faults.specs.Marks.{Room, Kept};

use faults::words;
use refusals::Refusal;
use use_faults::use_fault;

// In an empty index, with no operand marked yet.
fn fault_in(
    table: &[u32],
    plain: bool,
    index: &mut [u16],
    marks: &mut [bool],
) -> Result<(), Refusal>
    requires { Room table.now index.old marks.old × Kept [] index.old marks.old }
    ensures { result ≡ contents plain table.now }
{
    words::words_fault(table, plain, index, marks)?;
    use_fault(table, &*marks)
}

// With a mark for each of WORDS words, and an index of INDEX numbers, half of which are more than those.
pub fn fault<const WORDS: usize, const INDEX: usize>(
    table: &[u32],
    plain: bool,
) -> Result<(), Refusal>
    requires sized { (WORDS < INDEX / 2) × (INDEX ≤ 32768) }
    requires roomy { length table.now ≤ WORDS }
    ensures { result ≡ contents plain table.now }
{
    let mut index = [0u16; INDEX];
    let mut marks = [false; WORDS];
    fault_in(table, plain, &mut index, &mut marks)
}
