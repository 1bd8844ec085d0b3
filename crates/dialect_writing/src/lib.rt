// The conversion of accepted words written to the front of a slice of any length, in rooms of the size that it can need.
#![tactic(auto)]

ghost use Rattle.std.specs.Prelude.{◌≡◌, true};
ghost use Rattle.std.specs.Prelude.{Ok};
ghost use Rattle.table.specs.Answers.{OrNone};
ghost use Rattle.table.specs.Checks.{checked};
ghost use Rattle.table.specs.Steps.{dialect_table};
ghost use Rattle.placing.specs.Written.{Written};

// The table at the front of the result, and its length, if it fits. It has no more words than the draft has slots, so no more of the result
// is lent. That the function calls itself also keeps the arrays of the rooms out of its frame: the compiler joins no
// function with large arrays to one that calls itself.
pub fn write(table: &[u32], res: &mut [u32]) -> Option<usize>
    requires { checked true 16383 table.now ≡ Ok tt }
    ensures { OrNone (λ n. Written (dialect_table table.now) res.old res.new n) result }
{
    let slots = 2 * table.len() + 2;
    if slots < res.len() {
        return write(table, &mut res[..slots]);
    }
    if table.len() <= 64 {
        return dialect_rooms::write_in::<130, 195, 392>(table, res);
    }
    if table.len() <= 512 {
        return dialect_rooms::write_in::<1026, 1539, 3080>(table, res);
    }
    dialect_rooms::write_in::<32768, 32768, 32768>(table, res)
}
