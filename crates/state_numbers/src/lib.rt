// The numbers of states: how many the words before each have, and the word and the class of one.
#![tactic(auto)]

ghost use Rattle.std.specs.Prelude.{◌≡◌, ◌≤◌, ◌<◌, length};
ghost use Rattle.automata_tables.specs.States.{state_words};
ghost use Rattle.state_numbers.specs.Numbered.{Classed, Room, Started, Numbered, Filled, InWord, Found};

use class_bytes::fill;

// Keeps the class of each word, and at each word's number how many states the words before it have; answers how many there are.
pub fn fill(words: &[u32], bytes: &mut [u8], starts: &mut [u16]) -> usize
    requires { Room words.now bytes.old starts.old }
    ensures { Filled words.now bytes.new starts.new result }
{
    fill::fill(words, &mut *bytes);
    number(words, bytes, starts)
}

// The same, of words whose classes are kept.
fn number(words: &[u32], bytes: &[u8], starts: &mut [u16]) -> usize
    requires { Classed words.now bytes.now × (length words.now < length starts.old) }
    ensures { (result ≡ length (state_words words.now)) × Started words.now starts.new }
{
    let mut total: usize = 0;
    for (i, word) in words.iter().enumerate() {
        starts[i + 1] = total as u16;
        total += state_classes::count(word::kind(*word), bytes[i]);
    }
    total
}

// The number of the word whose state has the number.
pub fn find(words: &[u32], starts: &[u16], state: usize) -> usize
    requires { Started words.now starts.now × (0 < state) × (state ≤ length (state_words words.now)) }
    ensures { InWord words.now state result }
{
    let mut n = words.len();
    while state <= starts[n] as usize {
        n -= 1;
    }
    n
}

// The bit of its class.
pub fn class_of(words: &[u32], bytes: &[u8], starts: &[u16], state: usize, n: usize) -> usize
    requires { Numbered words.now bytes.now starts.now × InWord words.now state n }
    ensures { Found words.now state n result }
{
    state_classes::class_at(bytes[n - 1], state - starts[n] as usize - 1)
}
