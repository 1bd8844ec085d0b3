// A rule read from a text, in lent numbers.
#![tactic(auto)]

ghost use Rattle.std.specs.Prelude.{◌≡◌, length};
ghost use Rattle.table.specs.Limits.{house};
ghost use Rattle.table.specs.Frame.{answer_of, result_of};
ghost use Rattle.text.specs.Text.{text_step};
ghost use Rattle.replies.specs.Replies.{TableReply};

use replies::table_reply;
use table::settings::Limits;

// The table of a rule typed as text, at the front of the result.
pub fn text(
    text: &[u8],
    written: usize,
    fixpoints: usize,
    res: &mut [u32],
    words: &mut usize,
    place: &mut usize,
) -> u32
    ensures table_reply { TableReply
        (answer_of (text_step (house written fixpoints)) text.now (length res.old))
        result words.new place.new }
    ensures res_after { res.new ≡ result_of (text_step (house written fixpoints)) text.now res.old }
{
    let limits = Limits { written, fixpoints };
    table_reply(text::read(limits, text, res), words, place)
}
