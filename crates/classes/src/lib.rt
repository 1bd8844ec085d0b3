// The class step: one byte a word of a plain table, bit b for the class of bit b.
#![tactic(auto)]

ghost use Rattle.std.specs.Prelude.{◌≡◌, length};
ghost use Rattle.table.specs.Frame.{class_step, outcome_of, result_of};

use class_bytes::fill;
use refusals::Refusal;

pub fn classify(table: &[u32], bytes: &mut [u8]) -> Result<(), Refusal>
    ensures value { result ≡ outcome_of class_step table.now (length bytes.old) }
    ensures bytes_after { bytes.new ≡ result_of class_step table.now bytes.old }
{
    heading::check(table, true, 16383)?;
    if bytes.len() < table.len() - 1 {
        bytes.fill(0);
        return Err(Refusal::ResultTooShort);
    }
    fill::fill(&table[1..], bytes);
    Ok(())
}
