// The checks of a table of words, numbers 1 to 10, in document 01's order.
#![tactic(auto)]

ghost use Rattle.std.specs.Prelude.{◌≡◌, min};
ghost use Rattle.table.specs.Checks.{checked};

use refusals::Refusal;

// A limit past the table's length asks no more than that length. That the function calls itself also keeps the arrays of the larger
// rooms out of its frame: the compiler joins no function with large arrays to one that calls itself.
pub fn check(table: &[u32], plain: bool, limit: usize) -> Result<(), Refusal>
    ensures { result ≡ checked plain (min limit 16383) table.now }
{
    if table.len() < limit {
        return check(table, plain, table.len());
    }
    if table.is_empty() {
        return Err(Refusal::NoWord);
    }
    if limit < table.len() {
        return Err(Refusal::TooManyWords);
    }
    if table.len() <= 64 {
        return check_rooms::fault::<64, 130>(table, plain);
    }
    if table.len() <= 512 {
        return check_rooms::fault::<512, 1026>(table, plain);
    }
    if table.len() <= 16383 {
        return check_rooms::fault::<16383, 32768>(table, plain);
    }
    Err(Refusal::TooManyWords)
}
