// A table converted, or stepped by a sample, in lent numbers.
#![tactic(auto)]

ghost use Rattle.std.specs.Prelude.{◌≡◌, length};
ghost use Rattle.table.specs.Frame.{dialect_step, after_step, answer_of, result_of};
ghost use Rattle.replies.specs.Replies.{TableReply};

use replies::table_reply;

// The table of a plain table's conversion to the dialect without W and M, at the front of the result.
pub fn dialect(table: &[u32], res: &mut [u32], words: &mut usize, place: &mut usize) -> u32
    ensures table_reply { TableReply
        (answer_of dialect_step table.now (length res.old))
        result words.new place.new }
    ensures res_after { res.new ≡ result_of dialect_step table.now res.old }
{
    table_reply(dialect::convert(table, res), words, place)
}

// The table of what remains of a plain table's rule after a sample, at the front of the result.
pub fn after(
    table: &[u32],
    sample: u32,
    driven: usize,
    res: &mut [u32],
    words: &mut usize,
    place: &mut usize,
) -> u32
    ensures table_reply { TableReply
        (answer_of (after_step sample driven) table.now (length res.old))
        result words.new place.new }
    ensures res_after { res.new ≡ result_of (after_step sample driven) table.now res.old }
{
    table_reply(after::step(table, sample, driven, res), words, place)
}
