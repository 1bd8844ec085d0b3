// The header of a table's words: kind 0, the class of the rule, the number of words; and whether that class is Delta-2.
#![tactic(auto)]

ghost use Rattle.std.specs.Prelude.{◌≡◌};
ghost use Rattle.logic.specs.Bit.{bit};
ghost use Rattle.table.specs.Node.{left};
ghost use Rattle.table.specs.Header.{header_of};
ghost use Rattle.header_classes.specs.Headable.{Headable};

use header_classes::class_of;

pub fn of(words: &[u32]) -> u32
    requires { Headable words.now }
    ensures { result ≡ header_of words.now }
{
    word::pack(0, class_of(words, 16383) as usize, words.len())
}

// Bit 6 of the class, Delta-2.
pub fn is_normal(header: u32) -> bool
    ensures { result ≡ bit (left header) 6 }
{
    (word::left(header) >> 6) & 1 == 1
}
