// The draft of a conversion, in one rising pass.
#![tactic(auto)]

ghost use Rattle.std.specs.Prelude.{length};
ghost use Rattle.dialect_slots.specs.Filling.{Room, Filled};

use dialect_slots::convert_word;

// All words.
pub fn fill(table: &[u32], draft: &mut [u64])
    requires { Room table.now draft.old }
    ensures { Filled table.now draft.new (length table.now) }
{
    for j in 1..=table.len() {
        convert_word(table, &mut *draft, j);
    }
}
