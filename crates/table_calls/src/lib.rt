// A table checked or classified, in lent numbers: each function answers document 01's refusal number, 0 when the call is accepted, and writes
// the place to a lent number.
#![tactic(auto)]

ghost use Rattle.std.specs.Prelude.{◌≡◌, length};
ghost use Rattle.refusals.specs.Refusals.{outcome_number, outcome_place};
ghost use Rattle.table.specs.Header.{headed_checked};
ghost use Rattle.table.specs.Frame.{class_step, outcome_of, result_of};

use outcome_replies::reply;

pub fn check(table: &[u32], plain: bool, limit: usize, place: &mut usize) -> u32
    ensures value { result ≡ outcome_number (headed_checked plain limit table.now) }
    ensures place_after { place.new ≡ outcome_place (headed_checked plain limit table.now) }
{
    reply(heading::check(table, plain, limit), place)
}

// One byte a word.
pub fn classify(table: &[u32], bytes: &mut [u8], place: &mut usize) -> u32
    ensures value { result ≡ outcome_number (outcome_of class_step table.now (length bytes.old)) }
    ensures place_after { place.new ≡ outcome_place (outcome_of class_step table.now (length bytes.old)) }
    ensures bytes_after { bytes.new ≡ result_of class_step table.now bytes.old }
{
    reply(classes::classify(table, bytes), place)
}
