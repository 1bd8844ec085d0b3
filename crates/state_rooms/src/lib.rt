// The states of accepted words, written where they fit, with class bytes of the size that the table can need: short tables pay for no more.
#![tactic(auto)]

ghost use Rattle.std.specs.Prelude.{◌≡◌, true, ◌≤◌, length};
ghost use Rattle.std.specs.Prelude.{Ok, Err};
ghost use Rattle.table.specs.Checks.{checked};
ghost use Rattle.state_words.specs.Stated.{Stated};

// The states where they fit, and how many there are. A number past the words' own asks no more than that. That the function calls itself
// also keeps the bytes of the larger rooms out of its frame: the compiler joins no function with large arrays to one that calls itself.
pub fn write(words: &[u32], most: usize, res: &mut [u32]) -> usize
    requires { checked true 16383 words.now ≡ Ok tt }
    ensures { Stated words.now res.old res.new result }
{
    if words.len() < most {
        return write(words, words.len(), res);
    }
    if words.len() <= 64 {
        return of::<64>(words, res);
    }
    if words.len() <= 512 {
        return of::<512>(words, res);
    }
    of::<16383>(words, res)
}

fn of<const BYTES: usize>(words: &[u32], res: &mut [u32]) -> usize
    requires { (checked true 16383 words.now ≡ Ok tt) × (length words.now ≤ BYTES) × (BYTES ≤ 16383) }
    ensures { Stated words.now res.old res.new result }
{
    let mut bytes = [0u8; BYTES];
    state_words::write(words, &mut bytes, res)
}
