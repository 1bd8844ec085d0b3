// The checks of a table that is handed over with its header.
#![tactic(auto)]

ghost use Rattle.std.specs.Prelude.{◌≡◌};
ghost use Rattle.table.specs.Header.{headed_checked};

use refusals::Refusal;

// 1, 2 and 23 by the header, then the words and their uses, then 24.
pub fn check(table: &[u32], plain: bool, limit: usize) -> Result<(), Refusal>
    ensures { result ≡ headed_checked plain limit table.now }
{
    if table.is_empty() {
        return Err(Refusal::NoWord);
    }
    let header = table[0];
    let count = word::right(header);
    if count == 0 {
        return Err(Refusal::NoWord);
    }
    if limit < count {
        return Err(Refusal::TooManyWords);
    }
    if count != table.len() - 1 {
        return Err(Refusal::CountDiffers);
    }
    reading::check(&table[1..], plain, limit)?;
    if header != headers::of(&table[1..]) {
        return Err(Refusal::HeaderWrong);
    }
    Ok(())
}
