// The normal form and the whole way in lent numbers: each function answers document 01's refusal number, 0 when the call is accepted, and
// writes the length, the place and whether its source is the form to lent numbers.
#![tactic(auto)]

ghost use Rattle.std.specs.Prelude.{◌≡◌, length};
ghost use Rattle.table.specs.Limits.{house};
ghost use Rattle.table.specs.Frame.{plain_step, normal_step, result_of, form_of};
ghost use Rattle.claims.specs.Whole.{whole_form, whole_result};
ghost use Rattle.replies.specs.Replies.{FormReply};

use replies::form_reply;
use table::settings::Limits;

// The form of a plain table: the table itself, or the front of the result.
pub fn normal(
    table: &[u32],
    written: usize,
    fixpoints: usize,
    res: &mut [u32],
    own: &mut bool,
    words: &mut usize,
    place: &mut usize,
) -> u32
    ensures form_reply { FormReply
        (form_of (house written fixpoints) table.now (length res.old))
        result own.new words.new place.new }
    ensures res_after { res.new ≡ result_of (normal_step (house written fixpoints)) table.now res.old }
{
    let limits = Limits { written, fixpoints };
    form_reply(normal_form::form(limits, table, res), own, words, place)
}

// The whole way: the plain form of a written table in one slice, and its form, which is that, or the front of the other.
pub fn form(
    table: &[u32],
    written: usize,
    fixpoints: usize,
    plain: &mut [u32],
    res: &mut [u32],
    own: &mut bool,
    words: &mut usize,
    place: &mut usize,
) -> u32
    ensures form_reply { FormReply
        (whole_form (house written fixpoints) table.now (length plain.old) (length res.old))
        result own.new words.new place.new }
    ensures plain_after { plain.new ≡ result_of (plain_step (house written fixpoints)) table.now plain.old }
    ensures res_after { res.new ≡ whole_result (house written fixpoints) table.now (length plain.old) res.old }
{
    let limits = Limits { written, fixpoints };
    form_reply(pipeline::form(limits, table, plain, res), own, words, place)
}
