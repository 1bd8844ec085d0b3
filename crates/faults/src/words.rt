// The checks of all words in rising order, each put into the index after its checks.
ghost use Rattle.std.specs.Prelude.{[], ◌<◌, length, take};
ghost use Rattle.faults.specs.Marks.{Room, Kept, WordRead, WordsRead};

use refusals::Refusal;

// The word after the first `i`, which are in the index.
fn word_fault(
    words: &[u32],
    i: usize,
    plain: bool,
    index: &mut [u16],
    marks: &mut [bool],
) -> Result<(), Refusal>
    requires { (i < length words.now) × Room words.now index.old marks.old × Kept (take i words.now) index.old marks.old }
    ensures { WordRead plain words.now i result index.new marks.new }
{
    let w = words[i];
    fields::fault(w, i + 1, plain, marks)?;
    if lookup::find(words, &*index, w).is_some() {
        return Err(Refusal::Repeated(i + 1));
    }
    indexing::add(index, w);
    Ok(())
}

// All words, into an empty index and with no operand marked yet.
pub fn words_fault(
    words: &[u32],
    plain: bool,
    index: &mut [u16],
    marks: &mut [bool],
) -> Result<(), Refusal>
    requires { Room words.now index.old marks.old × Kept [] index.old marks.old }
    ensures { WordsRead plain words.now result marks.new }
{
    for i in 0..words.len() {
        word_fault(words, i, plain, index, marks)?;
    }
    Ok(())
}
