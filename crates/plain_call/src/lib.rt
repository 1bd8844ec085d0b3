// The plain form in lent numbers: document 01's refusal number is answered, 0 when the call is accepted, and the length and the place are
// written to lent numbers.
#![tactic(auto)]

ghost use Rattle.std.specs.Prelude.{◌≡◌, length};
ghost use Rattle.table.specs.Limits.{house};
ghost use Rattle.table.specs.Frame.{plain_step, answer_of, result_of};
ghost use Rattle.replies.specs.Replies.{TableReply};

use replies::table_reply;
use table::settings::Limits;

// The plain form of a written table, at the front of the result.
pub fn plain(
    table: &[u32],
    written: usize,
    fixpoints: usize,
    res: &mut [u32],
    words: &mut usize,
    place: &mut usize,
) -> u32
    ensures table_reply { TableReply
        (answer_of (plain_step (house written fixpoints)) table.now (length res.old))
        result words.new place.new }
    ensures res_after { res.new ≡ result_of (plain_step (house written fixpoints)) table.now res.old }
{
    let limits = Limits { written, fixpoints };
    table_reply(nnf::plain_form(limits, table, res), words, place)
}
