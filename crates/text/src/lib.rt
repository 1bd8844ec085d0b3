// Rules typed as text: a text goes in, and its rule's table comes out at the front of the result.
#![tactic(auto)]

ghost use Rattle.std.specs.Prelude.{◌≡◌, length};
ghost use Rattle.table.specs.Frame.{answer_of, result_of};
ghost use Rattle.text.specs.Text.{text_step};

use parsing::parse;
use refusals::Refusal;
use table::settings::Limits;

// The table's length, or why there is none.
pub fn read(limits: Limits, text: &[u8], res: &mut [u32]) -> Result<usize, Refusal>
    ensures value { result ≡ answer_of (text_step limits) text.now (length res.old) }
    ensures res_after { res.new ≡ result_of (text_step limits) text.now res.old }
{
    if !limits::permitted(limits) {
        return Err(Refusal::LimitsOutside);
    }
    if 1024 < text.len() {
        return Err(Refusal::TextTooLong);
    }
    let mut stack = [0u32; 1025];
    let mut out = [0u32; 1025];
    let mut index = [0u16; 2052];
    let read = parse(text, &mut stack, &mut out, &mut index);
    let n = lookup::count(&index);
    if let Err(place) = read {
        return Err(Refusal::NotGrammar(place));
    }
    if limits.written < n {
        return Err(Refusal::TooManyWords);
    }
    headed_copy::write(&out[..n], res)
}
