// Words numbered as first needed, an identical word used again: the table so far stands at the front of the slice, its words in the index.
ghost use Rattle.table.specs.Answers.{OrNone};
ghost use Rattle.table.specs.Numbering as numbering;
ghost use Rattle.placing.specs.State.{Numbered, Putting, state, written};

// The number of a word: of an equal one that is there, or of a new one at the end; none where there is no room for it.
pub fn put(out: &mut [u32], index: &mut [u16], w: u32) -> Option<usize>
    requires { Numbered (state out.old index.old) }
    ensures { OrNone
        (λ n. Putting
        (state out.old index.old)
        (state out.new index.new)
        (numbering.put (written (state out.old index.old)) w)
        n)
        result }
{
    if let Some(found) = lookup::find(&*out, &*index, w) {
        return Some(found);
    }
    let n = lookup::count(&*index);
    if 16383 <= n {
        return None;
    }
    if out.len() <= n {
        return None;
    }
    out[n] = w;
    indexing::add(&mut *index, w);
    Some(n + 1)
}
