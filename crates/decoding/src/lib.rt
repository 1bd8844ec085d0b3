// Rules as a program reads them: words from bytes, least byte first.
#![tactic(auto)]

ghost use Rattle.std.specs.Prelude.{◌≡◌, ◌++◌, ◌+◌, ◌*◌, ◌<◌, ◌/◌, min, length, drop};
ghost use Rattle.refusals.specs.Refusals as refusals;
ghost use Rattle.table.specs.StepChecks.{input_checks};
ghost use Rattle.decoding.specs.Words.{word_at, decoded};

use refusals::Refusal;

// 18: whether the bytes of an input, the first ones and the rest, are whole words.
pub fn check_input(first: usize, rest: usize) -> Result<(), Refusal>
    ensures { result ≡ refusals.first (input_checks (first + rest)) }
{
    if (first % 4 + rest % 4) % 4 != 0 {
        return Err(Refusal::NotWords);
    }
    Ok(())
}

// Word number i, counted from 0, of some bytes.
#[tactic(auto, unfolding(crate::specs::Words::word_at))]
fn word(bytes: &[u8], i: usize) -> u32
    requires { i < length bytes.now / 4 }
    ensures { result ≡ word_at bytes.now i }
{
    let at = 4 * i;
    u32::from_le_bytes([bytes[at], bytes[at + 1], bytes[at + 2], bytes[at + 3]])
}

// The whole words of the bytes, as many as there is room for.
pub fn decode(bytes: &[u8], out: &mut [u32]) -> usize
    ensures value { result ≡ min (length bytes.now / 4) (length out.old) }
    ensures out_after { out.new ≡ decoded bytes.now 0 result ++ drop result out.old }
{
    let n = out.len().min(bytes.len() / 4);
    for (i, w) in out[..n].iter_mut().enumerate() {
        *w = word(bytes, i);
    }
    n
}
