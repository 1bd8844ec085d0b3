// A hash index of the words of a table, by chains, in one lent slice: the count of words, then for each word the latest earlier word
// of its bucket, and in the upper half the latest word of each bucket; 0 for none. Numbers fall along a chain, so a search ends.
#![tactic(auto)]

ghost use Rattle.std.specs.Prelude.{◌≡◌, ◌≤◌, ◌<◌, length, take};
ghost use Rattle.table.specs.Answers.{OrNone};
ghost use Rattle.lookup.specs.Index.{bucket_of, count_of, Indexed, Found};

// The hash of the word, a part of 2^32, as the same part of the buckets: one multiplication each, and no division.
pub fn bucket(half: usize, w: u32) -> usize
    requires { (0 < half) × (half ≤ 16384) }
    ensures { (result ≡ bucket_of half w) × (result < half) }
{
    (u64::from(w) * 3266489917 % 4294967296 * (half as u64) / 4294967296) as usize
}

// How many words are in the index.
pub fn count(index: &[u16]) -> usize
    requires { 0 < length index.now }
    ensures { result ≡ count_of index.now }
{
    usize::from(index[0])
}

// The number of a word, where it is among those in the index.
pub fn find(words: &[u32], index: &[u16], w: u32) -> Option<usize>
    requires { (count_of index.now ≤ length words.now) × Indexed (take (count_of index.now) words.now) index.now }
    ensures { OrNone (λ n. Found (take (count_of index.now) words.now) w n) result }
{
    let half = index.len() / 2;
    let head = half + bucket(half, w);
    let mut n = usize::from(index[head]);
    // A chain is no range: each number on it names the next, to 0.
    while 0 < n {
        if words[n - 1] == w {
            return Some(n);
        }
        n = usize::from(index[n]);
    }
    None
}
