// The form in as much of the result as it can need, with an index and a draft of the size that it can need.
#![tactic(auto)]

ghost use Rattle.table.specs.Answers.{OrNone};
ghost use Rattle.table.specs.Steps.{normal_table};
ghost use Rattle.placing.specs.Written.{Written};
ghost use Rattle.form_rooms.specs.Rooms.{Accepted, Positioned};

use form_lengths::words;
use form_rooms::room;

// The slots of a short draft, of a middling one and of any.
const SHORT_SLOTS: usize = 256;

const MIDDLE_SLOTS: usize = 1024;

const SLOTS: usize = 2605;

// A position for each word of a plain table, by its number.
const POSITIONS: usize = 515;

// The number of words of the form, which stand at the front of the result, or none where they do not fit.
pub fn form(table: &[u32], res: &mut [u32]) -> Option<usize>
    requires { Accepted table.now }
    ensures { OrNone (λ n. Written (normal_table table.now) res.old res.new n) result }
{
    let mut positions = [0u8; POSITIONS];
    let bits = fixpoints::count(table, &mut positions);
    write(table, &positions, bits, res)
}

// With the positions of the until-like words. No more of the result is lent than the form can need. That the function calls itself also keeps
// the arrays of the rooms out of its frame, and out of its callers' for a table that is its own form: the compiler joins no function with
// large arrays to one that calls itself.
fn write(table: &[u32], positions: &[u8], bits: u32, res: &mut [u32]) -> Option<usize>
    requires { Positioned table.now positions.now bits }
    ensures { OrNone (λ n. Written (normal_table table.now) res.old res.new n) result }
{
    let cap = words(table.len(), bits, res.len());
    if cap < res.len() {
        return write(table, positions, bits, &mut res[..cap]);
    }
    let slots = 5 * table.len() + 3 * (bits as usize) + 5;
    if cap <= 1023 && slots <= SHORT_SLOTS {
        return room::<SHORT_SLOTS, 2048>(table, positions, bits, res);
    }
    if cap <= 4096 && slots <= MIDDLE_SLOTS {
        return room::<MIDDLE_SLOTS, 8194>(table, positions, bits, res);
    }
    room::<SLOTS, 32768>(table, positions, bits, res)
}
