// Check 11: how many until-like words a table may have.
#![tactic(auto)]

ghost use Rattle.table.specs.Answers.{OrNone};
ghost use Rattle.fixpoint_checks.specs.Past.{Past};

use fixpoints::is_fixpoint;

// The place of the first until-like word past the limit.
pub fn past(table: &[u32], limit: usize) -> Option<usize>
    ensures { OrNone (λ n. Past table.now limit n) result }
{
    let mut found: usize = 0;
    for (i, &w) in table.iter().enumerate() {
        if is_fixpoint(w) {
            if found == limit {
                return Some(i + 1);
            }
            found += 1;
        }
    }
    None
}
